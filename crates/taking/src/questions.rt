// The questions: misses, and the two ratios (SCOPE, "Questions"). The state is handed back as it was handed in.
ghost use Rattle.std.specs.Prelude.{◌≡◌};
ghost use Rattle.taking.specs.Questions.{has as Questions·has, counted, replied, misses_of};
ghost use Rattle.taking.specs.Ratios.{rated_as, ratios_of};

use crate::counting::summed;
use crate::rating::rated;
use crate::{Opened, Ratios, Reply};
use order::Cache;
use units::Refusal;

impl Opened {
    // The misses of a cache: the references taken less the counts at depths 0 to w - 1.
    pub fn misses(self, counts: &[u32], cache: Cache) -> Reply<u32>
        ensures { counted result ≡ misses_of self counts.now cache.b.0 cache.s cache.w }
    {
        Reply {
            state: self,
            answer: self.try_misses(counts, cache),
        }
    }

    fn try_misses(&self, counts: &[u32], cache: Cache) -> Result<u32, Refusal>
        ensures { counted (replied self.now result) ≡ misses_of self.now counts.now cache.b.0 cache.s cache.w }
    {
        self.unasked(counts.len(), cache)?;
        let k = (cache.b.0 - self.order.bmin.0) as usize;
        let at = (k * self.order.rows() + cache.s as usize) * self.order.ways as usize;
        let hits = summed(&counts[at..at + cache.w as usize]);
        let misses = u64::from(self.taken)
            .checked_sub(hits)
            .ok_or(Refusal::CountOver)?;
        Ok(misses as u32)
    }

    // The two ratios of a cache, handed back together.
    pub fn ratios(self, counts: &[u32], cache: Cache) -> Reply<Ratios>
        ensures { rated_as result ≡ ratios_of self counts.now cache.b.0 cache.s cache.w }
    {
        Reply {
            state: self,
            answer: self.try_ratios(counts, cache),
        }
    }

    fn try_ratios(&self, counts: &[u32], cache: Cache) -> Result<Ratios, Refusal>
        ensures { rated_as (replied self.now result) ≡ ratios_of self.now counts.now cache.b.0 cache.s cache.w }
    {
        let misses = self.try_misses(counts, cache)?;
        if self.taken == 0 {
            return Err(Refusal::NoReferences);
        }
        Ok(rated(misses, self.taken, cache.b))
    }

    // The order has the cache. (As `Order::is_within`, one expression.)
    #[tactic(auto, unfolding(lists::specs::Tests::all_le))]
    pub fn has(self, cache: Cache) -> bool
        ensures { result ≡ Questions·has self.order cache.b.0 cache.s cache.w }
    {
        let order = self.order;
        (order.bmin.0..=order.bmax.0).contains(&cache.b.0)
            && cache.s <= order.smax
            && (1..=order.ways).contains(&cache.w)
    }
}
