// The counts: raising them, and what has to be seen before any is raised.
ghost use Rattle.std.specs.Prelude.{◌≡◌, false, ℕ, ◌+◌, ◌*◌, ◌≤◌, ◌<◌, leb, length, get_or, sum};
ghost use Rattle.lists.specs.Tables.{Bumped, over_row, raised_rows};
ghost use Rattle.lists.specs.Tests.{any_to};
ghost use Rattle.taking.specs.Parts.{count_most, Rows, Tabled, Raisable, depth_in, over_by, raised_by};

use crate::Opened;
use crate::references::Walks;

// One more at each of the depths up to `shared`.
pub(crate) fn bump(depths: &mut [u32], shared: u32)
    requires { (s : ℕ) → s < length depths.old → get_or depths.old s 0 < count_most }
    ensures { Bumped 0 (length depths.old) shared depths.old depths.new }
{
    let end = depths.len().min(shared as usize + 1);
    for depth in &mut depths[..end] {
        *depth += 1;
    }
}

impl Opened {
    // Some count to be raised is not below the references taken.
    pub(crate) fn is_over(&self, counts: &[u32], walks: &Walks) -> bool
        requires { Tabled self.now (length counts.now) walks.now }
        ensures { result ≡ over_by self.now walks.now counts.now }
    {
        let rows = self.order.rows();
        let ways = self.order.ways as usize;
        for k in 0..self.order.sizes() {
            if walks[k].place < self.used[k]
                && size_over(
                    &counts[k * rows * ways..],
                    ways,
                    &walks[k].depths[..rows],
                    self.taken,
                )
            {
                return true;
            }
        }
        false
    }

    // At every block size where the block is found, one more in each row at its depth.
    pub(crate) fn raise_all(&self, counts: &mut [u32], walks: &Walks)
        requires tabled { Tabled self.now (length counts.old) walks.now }
        requires none_over { over_by self.now walks.now counts.old ≡ false }
        ensures { counts.new ≡ raised_by self.now walks.now counts.old }
    {
        let rows = self.order.rows();
        let ways = self.order.ways as usize;
        for k in 0..self.order.sizes() {
            if walks[k].place < self.used[k] {
                raise(
                    &mut counts[k * rows * ways..],
                    ways,
                    &walks[k].depths[..rows],
                );
            }
        }
    }
}

// Some count to be raised in the rows that `counts` begins with, one for each depth, is not below `taken`.
// From the first depth of 0 on all are 0.
fn size_over(counts: &[u32], ways: usize, depths: &[u32], taken: u32) -> bool
    requires { Rows ways (length counts.now) depths.now }
    ensures { result ≡ any_to (length depths.now) (over_row ways 0 (depth_in depths.now) taken counts.now) }
{
    for (s, depth) in depths.iter().enumerate() {
        let d = *depth as usize;
        if d == 0 {
            return tops_over(&counts[s * ways..], ways, depths.len() - s, taken);
        }
        if d < ways && counts[s * ways + d] >= taken {
            return true;
        }
    }
    false
}

// In each of the rows that `counts` begins with, one for each depth, one more at that depth, where it is below `ways`.
// From the first depth of 0 on all are 0.
fn raise(counts: &mut [u32], ways: usize, depths: &[u32])
    requires rows { Rows ways (length counts.old) depths.now }
    requires raisable { Raisable 0 (length depths.now) ways (depth_in depths.now) counts.old }
    ensures { counts.new ≡ raised_rows ways 0 (depth_in depths.now) (length depths.now) counts.old }
{
    for (s, depth) in depths.iter().enumerate() {
        let d = *depth as usize;
        if d == 0 {
            raise_tops(&mut counts[s * ways..], ways, depths.len() - s);
            return;
        }
        if d < ways {
            counts[s * ways + d] += 1;
        }
    }
}

// Some count at depth 0 in the first `rows` rows is not below `taken`. By place, since `chunks_exact` divides at each call;
// and with no early return, since the loop is unrolled then.
pub(crate) fn tops_over(counts: &[u32], ways: usize, rows: usize, taken: u32) -> bool
    requires { (rows * ways ≤ length counts.now) × (1 ≤ ways) }
    ensures { result ≡ any_to rows (λ (s : ℕ). leb taken (get_or counts.now (s * ways) 0)) }
{
    let mut over = false;
    for s in 0..rows {
        over |= counts[s * ways] >= taken;
    }
    over
}

// In each of the first `rows` rows, one more at depth 0.
pub(crate) fn raise_tops(counts: &mut [u32], ways: usize, rows: usize)
    requires grid { (rows * ways ≤ length counts.old) × (1 ≤ ways) }
    requires raisable { (s : ℕ) → s < rows → get_or counts.old (s * ways) 0 < count_most }
    ensures { counts.new ≡ raised_rows ways 0 (λ (s : ℕ). 0) rows counts.old }
{
    for s in 0..rows {
        counts[s * ways] += 1;
    }
}

// The sum of at most 16 counts.
pub(crate) fn summed(counts: &[u32]) -> u64
    requires { length counts.now ≤ 16 }
    ensures { result ≡ sum counts.now }
{
    counts.iter().map(|count| u64::from(*count)).sum()
}
