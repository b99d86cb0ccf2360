// Opening an order over two lent tables (SCOPE, "The order's numbers").
ghost use Rattle.std.specs.Prelude.{◌≡◌};
ghost use Rattle.std.specs.Result.{result_unwrap_or};
ghost use Rattle.units.specs.Refusals.{answer_of};
ghost use Rattle.order.specs.Limits.{zero_order};
ghost use Rattle.taking.specs.World.{world};
ghost use Rattle.taking.specs.Opening.{Opens, fresh, unopened};

use crate::{Opened, Reply};
use lists::clear;
use order::Order;
use units::Refusal;

impl Opened {
    // Opens an order over two tables: zeroes what it needs of them. Refused, the state is zeros.
    pub fn open(order: Order, stacks: &mut [u32], counts: &mut [u32]) -> Reply<()>
        ensures { Opens order (unopened stacks.old counts.old) (answer_of result.answer)
            (world result.state stacks.new counts.new) }
    {
        match Opened::try_open(order, stacks, counts) {
            Ok(state) => Reply {
                state,
                answer: Ok(()),
            },
            Err(refusal) => Reply {
                state: Opened::none(),
                answer: Err(refusal),
            },
        }
    }

    fn try_open(order: Order, stacks: &mut [u32], counts: &mut [u32]) -> Result<Opened, Refusal>
        ensures { Opens order (unopened stacks.old counts.old) (answer_of result)
            (world (result_unwrap_or result (fresh zero_order)) stacks.new counts.new) }
    {
        let opened = Opened::fresh(order);
        opened.unfit(stacks.len(), counts.len())?;
        clear(stacks, order.stack_need());
        clear(counts, order.count_need());
        Ok(opened)
    }

    // Zeros: no order opened yet, or one refused.
    pub fn none() -> Opened
        ensures { result ≡ fresh zero_order }
    {
        Opened::fresh(Order::none())
    }

    // The order with no references taken and every stack empty.
    fn fresh(order: Order) -> Opened
        ensures { result ≡ fresh order }
    {
        Opened {
            order,
            taken: 0,
            used: [0; Order::SIZES_MOST],
        }
    }
}
