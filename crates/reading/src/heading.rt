// A line of the order, before the trace: each has its place, and the begin line opens the order.
ghost use Rattle.std.specs.Prelude.{◌≡◌, ◌+◌, ◌<◌, cond, eqb};
ghost use Rattle.units.specs.Refusals.{answer_of, done, bad_order_line};
ghost use Rattle.lines.specs.OrderLine.{order_line_of};
ghost use Rattle.reading.specs.Reading.{desk, outcome, answered, with_stage};
ghost use Rattle.reading.specs.Head.{number_at, kinds_at, begin_at, order_step};

use crate::{Reading, stage};
use lines::{Kinds, OrderLine, order_line};
use order::Order;
use taking::Opened;
use units::{ByteExp, Refusal};

impl Reading {
    pub(crate) fn order_step(
        &mut self,
        line: &[u8],
        stacks: &mut [u32],
        counts: &mut [u32],
    ) -> Result<(), Refusal>
        ensures { outcome (answer_of result) (desk self.new stacks.new counts.new)
            ≡ order_step (desk self.old stacks.old counts.old) (order_line_of line.now) }
    {
        match order_line(line)? {
            OrderLine::Bmin(n) => self.number(stage::BMIN, n),
            OrderLine::Bmax(n) => self.number(stage::BMAX, n),
            OrderLine::Smax(n) => self.number(stage::SMAX, n),
            OrderLine::Ways(n) => self.number(stage::WAYS, n),
            OrderLine::Room(n) => self.number(stage::ROOM, n),
            OrderLine::Refs(n) => self.number(stage::REFS, n),
            OrderLine::Kinds(kinds) => self.counting(kinds),
            OrderLine::Begin => self.begin(stacks, counts),
        }
    }

    // Past this stage, where the input has come to it.
    fn go_past(&mut self, place: u32) -> Result<(), Refusal>
        requires { place < 8 }
        ensures { answered (answer_of result) self.new ≡ cond (eqb self.old.stage place)
            (answered done (with_stage (place + 1) self.old)) (answered bad_order_line self.old) }
    {
        if self.stage != place {
            return Err(Refusal::BadOrderLine);
        }
        self.stage = place + 1;
        Ok(())
    }

    // One of the order's numbers.
    fn number(&mut self, place: u32, n: u32) -> Result<(), Refusal>
        requires { place < 6 }
        ensures { answered (answer_of result) self.new ≡ number_at place n self.old }
    {
        self.go_past(place)?;
        self.head.numbers[place as usize] = n;
        Ok(())
    }

    // What the order counts.
    fn counting(&mut self, kinds: Kinds) -> Result<(), Refusal>
        ensures { answered (answer_of result) self.new ≡ kinds_at kinds self.old }
    {
        self.go_past(stage::KINDS)?;
        self.head.kinds = kinds;
        Ok(())
    }

    // The begin line, after the numbers or after what is counted.
    fn begin(&mut self, stacks: &mut [u32], counts: &mut [u32]) -> Result<(), Refusal>
        ensures { outcome (answer_of result) (desk self.new stacks.new counts.new)
            ≡ begin_at (desk self.old stacks.old counts.old) }
    {
        if self.stage != stage::KINDS && self.stage != stage::BEGIN {
            return Err(Refusal::BadOrderLine);
        }
        let [bmin, bmax, smax, ways, room, refs] = self.head.numbers;
        let order = Order::new(ByteExp(bmin), ByteExp(bmax), smax, ways, room, refs)?;
        let reply = Opened::open(order, stacks, counts);
        reply.answer?;
        self.opened = reply.state;
        self.stage = stage::TRACE;
        Ok(())
    }
}
