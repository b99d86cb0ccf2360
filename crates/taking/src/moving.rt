// The stacks: a block goes to the top of each.
ghost use Rattle.std.specs.Prelude.{◌≡◌, ◌≤◌, ◌<◌, length};
ghost use Rattle.lists.specs.Tables.{front};
ghost use Rattle.order.specs.Limits.{sizes_most, sizes as sizes_of};
ghost use Rattle.taking.specs.Parts.{Roomed, Moved, full_by, wider_by};

use crate::Opened;
use crate::references::Walks;
use units::BlockNo;

impl Opened {
    // Some walk left at or past room: its block is new and its stack is full.
    pub(crate) fn is_full(&self, walks: &Walks) -> bool
        requires { sizes_of self.now.order ≤ sizes_most }
        ensures { result ≡ full_by self.now walks.now }
    {
        let room = self.order.room;
        walks[..self.order.sizes()]
            .iter()
            .any(|walk| walk.place >= room)
    }

    // Puts the block, `first` of the smallest size, on top of every stack, and sets each stack's used length.
    pub(crate) fn move_all(&mut self, stacks: &mut [u32], walks: &Walks, first: BlockNo)
        requires { Roomed self.old (wider_by first.0) stacks.old walks.now }
        ensures { Moved self.old (wider_by first.0) stacks.old self.new stacks.new }
    {
        let room = self.order.room as usize;
        for k in 0..self.order.sizes() {
            let x = first.wider(k as u32);
            to_front(&mut stacks[k * room..], walks[k].place as usize, x);
            self.used[k] = self.used[k].max(walks[k].place + 1);
        }
    }
}

// The first p entries move down one, over the entry at p, and x goes on top.
fn to_front(stack: &mut [u32], p: usize, x: BlockNo)
    requires { p < length stack.old }
    ensures { stack.new ≡ front x.0 p stack.old }
{
    stack.copy_within(..p, 1);
    stack[0] = x.0;
}
