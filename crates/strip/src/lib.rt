// The stripper: of a list of addresses it keeps those whose reference misses in a direct-mapped cache
// (SCOPE, "Strip"). The lent filter is that cache: entry i is the last block of set i plus one,
// or zero where none came.
#![tactic(auto)]

ghost use Rattle.std.specs.Prelude.{◌≡◌, ◌^◌, ◌≤◌, ◌<◌, length};
ghost use Rattle.lists.specs.Tests.{all_le};
ghost use Rattle.strip.specs.Strip.{strip_limits, Strips, stripped};

use lists::clear;
use order::Order;
use units::{Addr, ByteExp, Refusal};

// Puts the addresses that miss in the cache of 2^s sets at the front of the output; how many they are.
pub fn strip(
    list: &[u32],
    b: ByteExp,
    s: u32,
    filter: &mut [u32],
    out: &mut [u32],
) -> Result<usize, Refusal>
    ensures { Strips list.now b.0 s filter.old out.old (stripped result) filter.new out.new }
{
    if !is_within(b, s) {
        return Err(Refusal::OutsideLimits);
    }
    if filter.len() < sets_of(s) {
        return Err(Refusal::ShortFilter);
    }
    let mut filter = Filter {
        b,
        s,
        entries: filter,
    };
    if filter.is_short(list, out.len()) {
        return Err(Refusal::ShortOutput);
    }
    Ok(filter.keep(list, out))
}

// Both numbers are within the order's limits. (As `Order::is_within`, one expression.)
#[tactic(auto, unfolding(lists::specs::Tests::all_le))]
fn is_within(b: ByteExp, s: u32) -> bool
    ensures { result ≡ all_le (strip_limits b.0 s) }
{
    (Order::B_LEAST..=Order::B_MOST).contains(&b.0) && s <= Order::S_MOST
}

fn sets_of(s: u32) -> usize
    requires { s < 32 }
    ensures { result ≡ 2 ^ s }
{
    1usize << s
}

// The lent filter, for blocks of 2^b bytes: it has an entry for each of 2^s sets, and a block number plus
// one fits an entry.
#[derive(Drop)]
struct Filter<'a> {
    b: ByteExp,
    s: u32,
    entries: &'a mut [u32],
    ghost small: { 1 ≤ b.0 },
    ghost few: { s < 32 },
    ghost wide: { 2 ^ s ≤ length entries.now },
}

impl Filter<'_> {
    ghost use Rattle.strip.specs.Filter.{Refers, Keeps, Empties};

    // One reference: whether its block was the last of its set; from now on it is.
    fn refer(&mut self, a: Addr) -> bool
        ensures { Refers a.0 self.old result self.new }
    {
        let block = a.block(self.b);
        let set = block.set(self.s);
        let place = set.0 as usize;
        let entry = block.0 + 1;
        let held = self.entries[place] == entry;
        self.entries[place] = entry;
        held
    }

    // Passes the list, and puts the addresses that are kept at the front of the output, as far as that
    // has room; how many are kept.
    fn keep(&mut self, list: &[u32], out: &mut [u32]) -> usize
        ensures { Keeps list.now self.old out.old result self.new out.new }
    {
        let mut n: usize = 0;
        for &a in list {
            if !self.refer(Addr(a)) {
                if n < out.len() {
                    out[n] = a;
                }
                n += 1;
            }
        }
        n
    }

    // Empties the filter, and tells whether an output of `len` is shorter than what is kept. That is
    // counted only where the list is longer: no more are kept than came.
    fn is_short(&mut self, list: &[u32], len: usize) -> bool
        ensures { Empties list.now len self.old result self.new }
    {
        let sets = sets_of(self.s);
        clear(self.entries, sets); // whatever it held
        if list.len() <= len {
            return false;
        }
        let kept = self.keep(list, &mut []);
        clear(self.entries, sets); // of what was counted
        len < kept
    }
}
