// Flushing (SCOPE, "Flushing"): every stack of the order is emptied. Its cost goes with what was used, not with room.
ghost use Rattle.std.specs.Prelude.{ℕ, List};
ghost use Rattle.units.specs.Refusals.{answer_of};
ghost use Rattle.cache.specs.Cache.{flush as Given·flush};
ghost use Rattle.taking.specs.World.{world};
ghost use Rattle.taking.specs.Taking.{Takes};
ghost use Rattle.taking.specs.Parts.{Stacked, Emptied};

use crate::{Opened, Reply};
use units::Refusal;

impl Opened {
    // Empties every stack: the used entries become zero and the used lengths 0. Counts and references taken stay.
    pub fn flush(mut self, stacks: &mut [u32]) -> Reply<()>
        ensures { (ct : List ℕ) → Takes (world self stacks.old ct) Given·flush (answer_of result.answer) (world result.state stacks.new ct) }
    {
        let answer = self.try_flush(stacks);
        Reply {
            state: self,
            answer,
        }
    }

    fn try_flush(&mut self, stacks: &mut [u32]) -> Result<(), Refusal>
        ensures { (ct : List ℕ) → Takes (world self.old stacks.old ct) Given·flush (answer_of result) (world self.new stacks.new ct) }
    {
        self.unflushed(stacks.len())?;
        self.empty_all(stacks);
        Ok(())
    }

    // Zeroes the used entries of each stack, and sets its used length to 0.
    fn empty_all(&mut self, stacks: &mut [u32])
        requires { Stacked self.old stacks.old }
        ensures { Emptied self.old stacks.old self.new stacks.new }
    {
        let room = self.order.room as usize;
        for k in 0..self.order.sizes() {
            let base = k * room;
            stacks[base..base + self.used[k] as usize].fill(0);
            self.used[k] = 0;
        }
    }
}
