// The library's calls for C and Rust: numbers, slices and references to what has a fixed size. A slice
// crosses as a pointer and then a length; a state, as a pointer to 15 numbers: bmin, bmax, smax, ways, room,
// refs, the references taken, and the used length of each stack. include/kkaeduron.h declares these functions.
// Answers are numbers here, and zeros stand beside a refusal, since this is the interface of C.
#![tactic(auto)]

ghost use Rattle.std.specs.Prelude.{ℕ, ◌≡◌, List};
ghost use Rattle.cache.specs.Cache.{ref, flush};
ghost use Rattle.strip.specs.Strip.{Strips};
ghost use Rattle.capi.specs.Boundary.{numbers_of, lent, Says, CallsOpen, CallsTake, CallsMisses, CallsRatios};

use order::{Cache, Order};
use strip::strip;
use taking::{Opened, Ratios, Reply};
use units::refusal::answer_of;
use units::{Addr, ByteExp};

// How many numbers a state has.
pub const STATE_NUMBERS: usize = 15;

// The miss ratio and the traffic ratio.
pub const BOTH_RATIOS: usize = 2;

// Opens an order over two tables, and puts the opened order into the state.
#[unsafe(no_mangle)]
pub extern "C" fn kkaeduron_open(
    bmin: u32,
    bmax: u32,
    smax: u32,
    ways: u32,
    room: u32,
    refs: u32,
    state: &mut [u32; STATE_NUMBERS],
    stacks: &mut [u32],
    counts: &mut [u32],
) -> u32
    ensures { CallsOpen
        (record { bmin = record { 0 = bmin }; bmax = record { 0 = bmax }; smax = smax; ways = ways; room = room; refs = refs })
        (lent state.old stacks.old counts.old)
        result (lent state.new stacks.new counts.new) }
{
    let reply = match Order::new(ByteExp(bmin), ByteExp(bmax), smax, ways, room, refs) {
        Ok(order) => Opened::open(order, stacks, counts),
        Err(refusal) => Reply {
            state: Opened::none(),
            answer: Err(refusal),
        },
    };
    *state = numbers_of(reply.state);
    answer_of(&reply.answer)
}

// Takes a reference, and puts the state that is handed back in the place of the one that was handed in.
#[unsafe(no_mangle)]
pub extern "C" fn kkaeduron_take(
    state: &mut [u32; STATE_NUMBERS],
    stacks: &mut [u32],
    counts: &mut [u32],
    addr: u32,
) -> u32
    ensures { CallsTake
        (lent state.old stacks.old counts.old) (ref addr)
        result (lent state.new stacks.new counts.new) }
{
    let handed = state_from(*state);
    let reply = handed.take_ref(stacks, counts, Addr(addr));
    *state = numbers_of(reply.state);
    answer_of(&reply.answer)
}

// Empties every stack, and puts the state that is handed back in the place of the one that was handed in.
#[unsafe(no_mangle)]
pub extern "C" fn kkaeduron_flush(state: &mut [u32; STATE_NUMBERS], stacks: &mut [u32]) -> u32
    ensures { (ct : List ℕ) → CallsTake
        (lent state.old stacks.old ct) flush
        result (lent state.new stacks.new ct) }
{
    let handed = state_from(*state);
    let emptied = handed.flush(stacks);
    *state = numbers_of(emptied.state);
    answer_of(&emptied.answer)
}

// Puts the misses of the cache (b, s, w) into a number.
#[unsafe(no_mangle)]
pub extern "C" fn kkaeduron_misses(
    state: &[u32; STATE_NUMBERS],
    counts: &[u32],
    b: u32,
    s: u32,
    w: u32,
    misses: &mut u32,
) -> u32
    ensures { CallsMisses state.now counts.now b s w result misses.new }
{
    let handed = state_from(*state);
    let cache = Cache {
        b: ByteExp(b),
        s,
        w,
    };
    let counted = handed.misses(counts, cache);
    *misses = counted.answer.unwrap_or(0);
    answer_of(&counted.answer)
}

// Puts the two ratios of the cache (b, s, w), the miss ratio first, into two numbers.
#[unsafe(no_mangle)]
pub extern "C" fn kkaeduron_ratios(
    state: &[u32; STATE_NUMBERS],
    counts: &[u32],
    b: u32,
    s: u32,
    w: u32,
    ratios: &mut [f64; BOTH_RATIOS],
) -> u32
    ensures { CallsRatios state.now counts.now b s w result ratios.new }
{
    let handed = state_from(*state);
    let cache = Cache {
        b: ByteExp(b),
        s,
        w,
    };
    let rated = handed.ratios(counts, cache);
    let Ratios { miss, traffic } = rated.answer.unwrap_or(Ratios::none());
    *ratios = [miss, traffic];
    answer_of(&rated.answer)
}

// Strips a list of addresses, and puts how many were kept into a number.
#[unsafe(no_mangle)]
pub extern "C" fn kkaeduron_strip(
    list: &[u32],
    b: u32,
    s: u32,
    filter: &mut [u32],
    out: &mut [u32],
    kept: &mut usize,
) -> u32
    ensures { Strips list.now b s filter.old out.old
        (record { answer = result; kept = kept.new }) filter.new out.new }
{
    let stripped = strip(list, ByteExp(b), s, filter, out);
    *kept = stripped.unwrap_or(0);
    answer_of(&stripped)
}

// The opened order that the numbers say. Neither this nor its reverse is a `From`: it would have to stand in taking, which knows nothing of
// how a state is laid out for C.
fn state_from(state: [u32; STATE_NUMBERS]) -> Opened
    ensures { Says state result }
{
    let [bmin, bmax, smax, ways, room, refs, taken, ..] = state;
    let mut used = [0; Order::SIZES_MOST];
    used.copy_from_slice(&state[7..]);
    Opened {
        order: Order {
            bmin: ByteExp(bmin),
            bmax: ByteExp(bmax),
            smax,
            ways,
            room,
            refs,
        },
        taken,
        used,
    }
}

// The numbers of an opened order.
fn numbers_of(opened: Opened) -> [u32; STATE_NUMBERS]
    ensures { result ≡ numbers_of opened }
{
    let order = opened.order;
    let mut numbers = [0; STATE_NUMBERS];
    numbers[..7].copy_from_slice(&[
        order.bmin.0,
        order.bmax.0,
        order.smax,
        order.ways,
        order.room,
        order.refs,
        opened.taken,
    ]);
    numbers[7..].copy_from_slice(&opened.used);
    numbers
}
