// The printed output as bytes in a lent buffer, a line at a time (SCOPE, "Program, order lines and din lines"), and
// the walk over the caches of the table.
#![tactic(auto)]

ghost use Rattle.std.specs.Prelude.{◌≡◌, ◌+◌, ◌≤◌, length};
ghost use Rattle.std.specs.Iterator.{item_count};
ghost use Rattle.printing.specs.Printed.{decimal_of, head_lines, line_at, refusal_line};
ghost use Rattle.printing.specs.Forms.{filled, most, Puts, Prints};
ghost use Rattle.printing.specs.Grid.{grid_of, first_cache, next_cache, caches_left, WalkSteps};

use order::{Cache, Order};
use reading::Tally;
use taking::Opened;
use units::ByteExp;
use units::refusal::has_column;

// How long a lent buffer must be: the head has 113 bytes at most, and a line of the table 97. (In a shorter one the three functions put
// 0 bytes: callers may lend any, and get a number back.)
pub const LINE_MOST: usize = 128;

// The caches of an order, in the order of the table: w upward, then s, then b.
#[derive(Clone, Copy, Debug, PartialEq, Eq)]
pub struct Walk {
    pub order: Order,
    // The cache that comes next, or that none does.
    pub next: Option<Cache>,
}

impl Walk {
    // Over all of them.
    pub fn over(order: Order) -> Walk
        ensures first { result ≡ record { order = order; next = first_cache order } }
        ensures all { caches_left result ≡ grid_of order }
    {
        let first = Cache {
            b: order.bmin,
            s: 0,
            w: 1,
        };
        Walk {
            order,
            next: Some(first),
        }
    }
}

impl Iterator for Walk {
    type Item = Cache;

    ghost next_gives = { WalkSteps };

    ghost remaining = { item_count caches_left };

    fn next(&mut self) -> Option<Cache> {
        let cache = self.next?;
        self.next = cache_after(self.order, cache);
        Some(cache)
    }
}

// The next cache of an order after any other.
pub fn cache_after(order: Order, cache: Cache) -> Option<Cache>
    ensures { result ≡ next_cache order cache }
{
    let Cache { b, s, w } = cache;
    if w < order.ways {
        Some(Cache { b, s, w: w + 1 })
    } else if s < order.smax {
        Some(Cache { b, s: s + 1, w: 1 })
    } else if b.0 < order.bmax.0 {
        Some(Cache {
            b: ByteExp(b.0 + 1),
            s: 0,
            w: 1,
        })
    } else {
        None
    }
}

// The head of the table.
pub fn head_lines(refs: u32, tally: Tally, out: &mut [u8]) -> usize
    ensures { Prints (head_lines refs tally) out.old result out.new }
{
    if out.len() < LINE_MOST {
        return 0;
    }
    let numbers = [2, refs as u64, tally.skipped as u64, tally.flushes as u64];
    fill(out, b"edition=#\nrefs=#\nskipped=#\nflushes=#\n", &numbers)
}

// The line of one cache; nothing where the question is refused.
pub fn cache_line(cache: Cache, opened: &Opened, counts: &[u32], out: &mut [u8]) -> usize
    ensures { Prints (line_at opened.now counts.now cache) out.old result out.new }
{
    if out.len() < LINE_MOST {
        return 0;
    }
    let counted = opened.misses(counts, cache);
    let Ok(misses) = counted.answer else {
        return 0;
    };
    let Cache { b, s, w } = cache;
    let numbers = [b.0 as u64, s as u64, w as u64, misses as u64];
    fill(out, b"b=# s=# w=# misses=#\n", &numbers)
}

// The refusal, with the column of a trace line that is bad. (By its number, since this is promised of every number.)
pub fn refusal_line(answer: u32, line: u64, column: u32, out: &mut [u8]) -> usize
    ensures { Prints (refusal_line answer line column) out.old result out.new }
{
    if out.len() < LINE_MOST {
        return 0;
    }
    if has_column(answer) {
        let numbers = [answer as u64, line, column as u64];
        return fill(out, b"refused=# line=# column=#\n", &numbers);
    }
    let numbers = [answer as u64, line];
    fill(out, b"refused=# line=#\n", &numbers)
}

// Puts a text from `at` on; gives the place after it. (Not by `write!`: it promises its bytes where it returns Ok, and never that it does,
// while a line is promised in every buffer that has room.)
fn put(out: &mut [u8], at: usize, text: &[u8]) -> usize
    requires { at + length text.now ≤ length out.old }
    ensures { Puts text.now at out.old result out.new }
{
    let end = at + text.len();
    out[at..end].copy_from_slice(text);
    end
}

// A number in decimal.
fn put_number(out: &mut [u8], at: usize, n: u64) -> usize
    requires { at + 20 ≤ length out.old }
    ensures { Puts (decimal_of n) at out.old result out.new }
{
    let mut digits = [0u8; 20];
    let k = io::decimal(n, &mut digits);
    put(out, at, &digits[..k])
}

// A form filled in from the start of the buffer on: each `#` in it stands for the next number, or for 0 where they are used up.
fn fill(out: &mut [u8], form: &[u8], numbers: &[u64]) -> usize
    requires { most form.now ≤ length out.old }
    ensures { Puts (filled form.now numbers.now) 0 out.old result out.new }
{
    let mut numbers = numbers.iter();
    let mut end = 0usize;
    for c in form {
        if *c == b'#' {
            let n = numbers.next().copied().unwrap_or(0);
            end = put_number(out, end, n);
        } else {
            out[end] = *c;
            end += 1;
        }
    }
    end
}
