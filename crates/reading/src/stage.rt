// The stages of an input: what comes next in it. They are numbers, and no enum: what takes a Reading promises for
// every number of a stage, and an enum of these nine would ask more of its callers.

// The line of each of the order's numbers, in their order.
pub const BMIN: u32 = 0;

pub const BMAX: u32 = 1;

pub const SMAX: u32 = 2;

pub const WAYS: u32 = 3;

pub const ROOM: u32 = 4;

pub const REFS: u32 = 5;

// `kinds=` or `begin=`.
pub const KINDS: u32 = 6;

// `begin=` alone.
pub const BEGIN: u32 = 7;

pub const TRACE: u32 = 8;
