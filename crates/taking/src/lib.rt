// The opened order, and what its functions hand back (SCOPE, "The order's numbers" and "Questions"). Its functions
// stand in opening.rt, references.rt, flushing.rt, questions.rt and refusing.rt, and what these rest on in counting.rt,
// moving.rt and rating.rt. Both tables are lent: slices of 32-bit numbers,
// each by itself, since a flush takes the stacks alone and a question the counts.
#![tactic(auto)]

use order::Order;
use units::Refusal;

mod counting;
mod flushing;
mod moving;
mod opening;
mod questions;
mod rating;
mod references;
mod refusing;

// The opened order: the order's numbers, the references taken, and the used length of each stack. (An array of the most there can be, since
// there is no heap, and C lends a state of as many numbers.)
#[derive(Clone, Copy, Debug, PartialEq, Eq)]
pub struct Opened {
    pub order: Order,
    pub taken: u32,
    pub used: [u32; Order::SIZES_MOST],
}

// The state handed back, beside the answer (SCOPE, F3).
#[derive(Clone, Copy, Debug)]
pub struct Reply<T> {
    pub state: Opened,
    pub answer: Result<T, Refusal>,
}

// The miss ratio and the traffic ratio of a cache.
#[derive(Clone, Copy, Debug, PartialEq)]
pub struct Ratios {
    pub miss: f64,
    pub traffic: f64,
}
