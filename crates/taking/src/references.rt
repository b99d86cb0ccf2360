// Taking a reference at all block sizes (SCOPE, "The stack and the counts"): the quick way, and the walk.
ghost use Rattle.std.specs.Prelude.{◌≡◌, ℕ, ◌<◌, true, List, length};
ghost use Rattle.units.specs.Refusals.{answer_of};
ghost use Rattle.order.specs.Limits.{stack_need, count_need};
ghost use Rattle.cache.specs.Cache.{block_of, ref};
ghost use Rattle.taking.specs.Places.{block_at};
ghost use Rattle.taking.specs.World.{world};
ghost use Rattle.taking.specs.Taking.{Takes};
ghost use Rattle.taking.specs.Parts.{Fit, wider_by, on_top, Looked};

use crate::counting::{bump, raise_tops, tops_over};
use crate::{Opened, Reply};
use order::Order;
use units::{Addr, BlockNo, Refusal};

// What the walk over a stack to a block finds: where it left, and for each s how many of the blocks before share its set. (Where the block is not
// there it left at the stack's length, and no Option tells: the block goes to the top from there as from any other place.)
#[derive(Clone, Copy)]
pub(crate) struct Walk {
    pub(crate) place: u32,
    pub(crate) depths: [u32; Order::ROWS_MOST],
}

// One for every block size that an order can have.
pub(crate) type Walks = [Walk; Order::SIZES_MOST];

// `Fit` stands in four contracts below, and is no type: a state comes in by value, fit or not, and goes back as it came, so such a type would be
// made and taken apart in each call; and the lengths of the tables, which are lent, would stay in each contract.
impl Opened {
    // Takes a reference. Most find their block on top of every stack: there each depth is 0 and nothing moves.
    pub fn take_ref(mut self, stacks: &mut [u32], counts: &mut [u32], a: Addr) -> Reply<()>
        ensures { Takes (world self stacks.old counts.old) (ref a.0) (answer_of result.answer)
            (world result.state stacks.new counts.new) }
    {
        let answer = self.try_take(stacks, counts, a);
        Reply {
            state: self,
            answer,
        }
    }

    fn try_take(&mut self, stacks: &mut [u32], counts: &mut [u32], a: Addr) -> Result<(), Refusal>
        ensures { Takes (world self.old stacks.old counts.old) (ref a.0) (answer_of result)
            (world self.new stacks.new counts.new) }
    {
        self.early(stacks.len(), counts.len())?;
        let first = a.block(self.order.bmin);
        if self.is_on_top(stacks, first) {
            self.take_top(counts)
        } else {
            self.take_deep(stacks, counts, first)
        }
    }

    // The block, `first` of the smallest size, is on top of the stack of every block size.
    fn is_on_top(&self, stacks: &[u32], first: BlockNo) -> bool
        requires { Fit self.now (length stacks.now) (count_need self.now.order) }
        ensures { result ≡ on_top self.now stacks.now (wider_by first.0) }
    {
        let sizes = self.order.sizes();
        let room = self.order.room as usize;
        for (k, used) in self.used[..sizes].iter().enumerate() {
            let x = first.wider(k as u32);
            let y = BlockNo(stacks[k * room]);
            // A named form (SCOPE, F4): each stack comparison counts the trailing zeros of the xor. All 32: one block.
            if *used == 0 || (x.0 ^ y.0).trailing_zeros() < 32 {
                return false;
            }
        }
        true
    }

    // The quick way, where the block is on top of every stack, whatever else these hold.
    fn take_top(&mut self, counts: &mut [u32]) -> Result<(), Refusal>
        requires { Fit self.old (stack_need self.old.order) (length counts.old) × (self.old.taken < self.old.order.refs) }
        ensures { (st : List ℕ) (a : ℕ) → Fit self.old (length st) (length counts.old)
            → on_top self.old st (block_at self.old a) ≡ true
            → Takes (world self.old st counts.old) (ref a) (answer_of result) (world self.new st counts.new) }
    {
        let tops = self.order.sizes() * self.order.rows();
        let ways = self.order.ways as usize;
        if tops_over(counts, ways, tops, self.taken) {
            return Err(Refusal::CountOver);
        }
        raise_tops(counts, ways, tops);
        self.taken += 1;
        Ok(())
    }

    // Any other way. All block sizes are looked at before any count is raised or any block moved.
    fn take_deep(
        &mut self,
        stacks: &mut [u32],
        counts: &mut [u32],
        first: BlockNo,
    ) -> Result<(), Refusal>
        requires { Fit self.old (length stacks.old) (length counts.old) × (self.old.taken < self.old.order.refs) }
        ensures { (a : ℕ) → first.0 ≡ block_of self.old.order.bmin.0 a
            → Takes (world self.old stacks.old counts.old) (ref a) (answer_of result)
            (world self.new stacks.new counts.new) }
    {
        let walks = self.look(stacks, first);
        if self.is_full(&walks) {
            return Err(Refusal::StackFull);
        }
        if self.is_over(counts, &walks) {
            return Err(Refusal::CountOver);
        }
        self.raise_all(counts, &walks);
        self.move_all(stacks, &walks, first);
        self.taken += 1;
        Ok(())
    }

    // At each block size walks the stack to its block, or to its end.
    fn look(&self, stacks: &[u32], first: BlockNo) -> Walks
        requires { Fit self.now (length stacks.now) (count_need self.now.order) }
        ensures { Looked self.now stacks.now (wider_by first.0) result }
    {
        let sizes = self.order.sizes();
        let rows = self.order.rows();
        let room = self.order.room as usize;
        let mut walks = [Walk {
            place: 0,
            depths: [0; Order::ROWS_MOST],
        }; Order::SIZES_MOST];
        for (k, used) in self.used[..sizes].iter().enumerate() {
            let x = first.wider(k as u32);
            let base = k * room;
            let stack = &stacks[base..base + *used as usize];
            let walk = &mut walks[k];
            // A named form (SCOPE, F5): this loop breaks with the place found, inside the one over block sizes.
            let place = 'walk: {
                for (i, entry) in stack.iter().enumerate() {
                    let y = BlockNo(*entry);
                    if y == x {
                        break 'walk i;
                    }
                    let shared = (x.0 ^ y.0).trailing_zeros();
                    bump(&mut walk.depths[..rows], shared);
                }
                stack.len()
            };
            walk.place = place as u32;
        }
        walks
    }
}
