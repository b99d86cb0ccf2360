// What the sweep program decides: from a line's bytes and the state to the next state and the answer
// (SCOPE, "Program, order lines and din lines"). Both tables are lent.
#![tactic(auto)]

ghost use Rattle.std.specs.Prelude.{◌≡◌, ◌+◌, min};
ghost use Rattle.units.specs.Refusals.{number_of, answer_of};
ghost use Rattle.reading.specs.Reading.{desk, start as Reading·start, at_line, answered};
ghost use Rattle.reading.specs.Step.{lines_most, Steps, long_line, ended as Reading·ended};

use lines::{Kinds, PAST_LONGEST};
use taking::Opened;
use units::Refusal;

mod heading;
pub mod stage;
mod tracing;

// The program's tables. "Block sizes times room may be at most 8,192 in this program."
pub const STACK_ENTRIES: usize = 8192;

// Enough for every order within its limits: 8 block sizes, 15 set counts, 16 ways.
pub const COUNT_ENTRIES: usize = 1920;

// The lines that an input may have.
pub const LINES_MOST: u64 = 4294967295;

// What the order's lines said: its six numbers, in their order, and what it counts.
#[derive(Clone, Copy, Debug, PartialEq, Eq)]
pub struct Head {
    pub numbers: [u32; 6],
    pub kinds: Kinds,
}

// Lines of the trace, counted by what was done with them.
#[derive(Clone, Copy, Debug, PartialEq, Eq)]
pub struct Tally {
    pub skipped: u32,
    pub flushes: u32,
}

// How far the input is read.
#[derive(Clone, Copy, Debug, PartialEq, Eq)]
pub struct Reading {
    // Lines read so far; at a refusal, the number of its line.
    pub lines: u64,
    // At the refusal of a bad line of the trace, its column; else 0. (A number, since `step` and `long_line` promise what is left of every one.)
    pub column: u32,
    // What comes next.
    pub stage: u32,
    pub head: Head,
    pub tally: Tally,
    pub opened: Opened,
}

impl Reading {
    // Before the first line.
    pub fn start() -> Reading
        ensures { result ≡ Reading·start }
    {
        Reading {
            lines: 0,
            column: 0,
            stage: stage::BMIN,
            head: Head {
                numbers: [0; 6],
                kinds: Kinds::All,
            },
            tally: Tally {
                skipped: 0,
                flushes: 0,
            },
            opened: Opened::none(),
        }
    }

    // One line, without its LF. One that is refused is the line self.lines, and a bad line of the trace is so at its
    // column self.column.
    pub fn step(
        &mut self,
        line: &[u8],
        stacks: &mut [u32],
        counts: &mut [u32],
    ) -> Result<(), Refusal>
        ensures { Steps (desk self.old stacks.old counts.old) line.now
            (answer_of result) (desk self.new stacks.new counts.new) }
    {
        self.next_line();
        if self.lines > LINES_MOST {
            return Err(Refusal::TooManyLines);
        }
        // Two kinds of lines, and the stage tells which. (A closure kept for the next line would be a state that no contract names.)
        if self.stage == stage::TRACE {
            self.trace_step(line, stacks, counts)
        } else {
            self.order_step(line, stacks, counts)
        }
    }

    // A line that the line buffer cannot hold, however long it is: it is refused.
    pub fn long_line(&mut self) -> Refusal
        ensures { answered (number_of result) self.new ≡ long_line self.old }
    {
        self.next_line();
        if self.lines > LINES_MOST {
            return Refusal::TooManyLines;
        }
        if self.stage == stage::TRACE {
            self.column = PAST_LONGEST;
            Refusal::TooLong
        } else {
            Refusal::BadOrderLine
        }
    }

    // The end of the input.
    pub fn ended(&mut self) -> Result<(), Refusal>
        ensures { answered (answer_of result) self.new ≡ Reading·ended self.old }
    {
        if self.stage == stage::TRACE {
            return Ok(());
        }
        self.next_line();
        Err(Refusal::BadOrderLine)
    }

    // One line more is read, up to one more than an input may have, and no column of it is told yet.
    fn next_line(&mut self)
        ensures { self.new ≡ at_line (min (self.old.lines + 1) (lines_most + 1)) 0 self.old }
    {
        self.lines = self.lines.min(LINES_MOST) + 1;
        self.column = 0;
    }
}
