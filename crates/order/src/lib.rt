// The order: its numbers, their limits, a constructor that checks them, and what the numbers come to
// (SCOPE, "The order's numbers").
#![tactic(auto)]

ghost use Rattle.std.specs.Prelude.{◌≡◌, cond};
ghost use Rattle.order.specs.Limits.{sizes as sizes_of, rows as rows_of, span as span_of, stack_need, count_need, within, zero_order, Checks};

use units::{ByteExp, Refusal};

// What is asked for: block sizes of 2^bmin to 2^bmax bytes, 2^0 to 2^smax sets, 1 to `ways` ways; `room`
// entries in each stack, and at most `refs` references.
#[derive(Clone, Copy, Debug, PartialEq, Eq)]
pub struct Order {
    pub bmin: ByteExp,
    pub bmax: ByteExp,
    pub smax: u32,
    pub ways: u32,
    pub room: u32,
    pub refs: u32,
}

// One cache: blocks of 2^b bytes, 2^s sets, w ways.
#[derive(Clone, Copy, Debug, PartialEq, Eq)]
pub struct Cache {
    pub b: ByteExp,
    pub s: u32,
    pub w: u32,
}

impl Order {
    // "bmin and bmax from 2 to 12"
    pub const B_LEAST: u32 = 2;

    pub const B_MOST: u32 = 12;

    // "at most 8 block sizes"
    pub const SIZES_MOST: usize = 8;

    // "smax from 0 to 14"
    pub const S_MOST: u32 = 14;

    // every s from 0 to S_MOST
    pub const ROWS_MOST: usize = Order::S_MOST as usize + 1;

    // "ways from 1 to 16"
    pub const WAYS_LEAST: u32 = 1;

    pub const WAYS_MOST: u32 = 16;

    // "room, entries per stack, from 1 to 1,048,576"
    pub const ROOM_LEAST: u32 = 1;

    pub const ROOM_MOST: u32 = 1048576;

    // "refs, the ceiling on references, from 1 to 4,000,000,000"
    pub const REFS_LEAST: u32 = 1;

    pub const REFS_MOST: u32 = 4000000000;

    // How many block sizes: bmin to bmax.
    pub fn sizes(self) -> usize
        ensures { result ≡ sizes_of self }
    {
        self.bmax.0.saturating_sub(self.bmin.0) as usize + 1
    }

    // How many s: 0 to smax.
    pub fn rows(self) -> usize
        ensures { result ≡ rows_of self }
    {
        self.smax as usize + 1
    }

    // The counts of one block size: for each s, one for each depth below `ways`.
    pub fn span(self) -> usize
        ensures { result ≡ span_of self }
    {
        self.rows() * self.ways as usize
    }

    // How many entries the stack table needs.
    pub fn stack_need(self) -> usize
        ensures { result ≡ stack_need self }
    {
        self.sizes() * self.room as usize
    }

    // How many entries the count table needs; 0 outside the limits, where the product may pass 64 bits.
    pub fn count_need(self) -> usize
        ensures { result ≡ cond (within self) (count_need self) 0 }
    {
        if !self.is_within() {
            return 0;
        }
        self.sizes() * self.span()
    }

    // Every number is within its limits. (One expression here, for a strip and for a question: a list of pairs would be built for each
    // reference. Exponents are compared as the numbers that the limits are.)
    #[tactic(auto, unfolding(lists::specs::Tests::all_le))]
    pub fn is_within(self) -> bool
        ensures { result ≡ within self }
    {
        self.bmin.0 >= Order::B_LEAST
            && self.bmax.0 <= Order::B_MOST
            && self.bmin.0 <= self.bmax.0
            && self.sizes() <= Order::SIZES_MOST
            && self.smax <= Order::S_MOST
            && (Order::WAYS_LEAST..=Order::WAYS_MOST).contains(&self.ways)
            && (Order::ROOM_LEAST..=Order::ROOM_MOST).contains(&self.room)
            && (Order::REFS_LEAST..=Order::REFS_MOST).contains(&self.refs)
    }

    // The order of these numbers, where each is within its limits.
    pub fn new(
        bmin: ByteExp,
        bmax: ByteExp,
        smax: u32,
        ways: u32,
        room: u32,
        refs: u32,
    ) -> Result<Order, Refusal>
        ensures { Checks (record { bmin = bmin; bmax = bmax; smax = smax; ways = ways; room = room; refs = refs }) result }
    {
        let order = Order {
            bmin,
            bmax,
            smax,
            ways,
            room,
            refs,
        };
        if order.is_within() {
            Ok(order)
        } else {
            Err(Refusal::OutsideLimits)
        }
    }

    // Zeros, beside a refusal.
    pub fn none() -> Order
        ensures { result ≡ zero_order }
    {
        Order {
            bmin: ByteExp(0),
            bmax: ByteExp(0),
            smax: 0,
            ways: 0,
            room: 0,
            refs: 0,
        }
    }
}
