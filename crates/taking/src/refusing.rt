// The refusals that need no walk (SCOPE, "Refusal numbers"): of an opening, a taking, a flush and a question.
ghost use Rattle.std.specs.Prelude.{◌≡◌, ◌≤◌};
ghost use Rattle.units.specs.Refusals.{answer_of};
ghost use Rattle.order.specs.Limits.{sizes, sizes_most};
ghost use Rattle.taking.specs.Taking.{is_foreign};
ghost use Rattle.taking.specs.Parts.{unfit_answer, early_answer, unflushable, unaskable};

use crate::Opened;
use order::Cache;
use units::Refusal;

impl Opened {
    // Refusals 1 to 5 of a taking, with tables of n and m entries.
    pub(crate) fn early(&self, n: usize, m: usize) -> Result<(), Refusal>
        ensures { answer_of result ≡ early_answer self.now n m }
    {
        self.unfit(n, m)?;
        if self.taken == self.order.refs {
            return Err(Refusal::RefsReached);
        }
        Ok(())
    }

    // Refusals 1, 2 and 4 of a flush, with a stack table of `len` entries. It looks at no count, so of these there are enough: more than
    // any table has, since what the order needs would be computed for each flush.
    pub(crate) fn unflushed(&self, len: usize) -> Result<(), Refusal>
        ensures { answer_of result ≡ unflushable self.now len }
    {
        self.unfit(len, usize::MAX)
    }

    // Refusals 1, 3, 4 and 8 of a question, with a count table of m entries. It looks at no stack, so there is room enough.
    pub(crate) fn unasked(&self, m: usize, cache: Cache) -> Result<(), Refusal>
        ensures { answer_of result ≡ unaskable self.now m cache.b.0 cache.s cache.w }
    {
        self.unfit(self.order.stack_need(), m)?;
        if !self.has(cache) {
            return Err(Refusal::NotInOrder);
        }
        Ok(())
    }

    // Refusals 1 to 4, with tables of n and m entries.
    pub(crate) fn unfit(&self, n: usize, m: usize) -> Result<(), Refusal>
        ensures { answer_of result ≡ unfit_answer self.now n m }
    {
        if !self.order.is_within() {
            return Err(Refusal::OutsideLimits);
        }
        if n < self.order.stack_need() {
            return Err(Refusal::ShortStacks);
        }
        if m < self.order.count_need() {
            return Err(Refusal::ShortCounts);
        }
        if self.is_foreign() {
            return Err(Refusal::ForeignState);
        }
        Ok(())
    }

    // The state has a used length above room for a block size of the order, or references above refs.
    fn is_foreign(&self) -> bool
        requires { sizes self.now.order ≤ sizes_most }
        ensures { result ≡ is_foreign self.now }
    {
        let sizes = self.order.sizes();
        let room = self.order.room;
        self.used[..sizes].iter().any(|used| *used > room) || self.taken > self.order.refs
    }
}
