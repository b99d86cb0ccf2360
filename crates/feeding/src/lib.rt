// The program's input as it comes: slices of bytes, one after the other, cut into lines, and each line given to
// the reader (SCOPE, "Program, order lines and din lines"). Both tables are lent.
#![tactic(auto)]

ghost use Rattle.std.specs.Prelude.{◌≡◌};
ghost use Rattle.feeding.specs.Feeding.{start as Feeding·start, Feeds, Ends};
ghost use Rattle.feeding.specs.Parts.{Copied, EndsLine, RefusesLine};

use lines::LONGEST;
use reading::{LINES_MOST, Reading};
use units::refusal::answer_of;

// How far the input is read, and the line that has begun: its bytes are the first `len` of the line buffer. (An array and its
// length, as SCOPE names the form, F8: what is promised is promised of all its bytes.)
#[derive(Clone, Copy, Debug, PartialEq, Eq)]
pub struct Feeding {
    pub reading: Reading,
    // Where it is not 0 the input is refused at line reading.lines, and no further byte is looked at. (A number, since what `feed` and
    // `ended` promise is promised of every number that a caller may put here.)
    pub answer: u32,
    pub len: u8,
    pub line: [u8; LONGEST],
}

// Copies the bytes before the next LF to the front of the line, as many as it has room for; gives how many.
fn copy_line(bytes: &[u8], line: &mut [u8]) -> usize
    ensures { Copied bytes.now line.old result line.new }
{
    let most = bytes.len().min(line.len());
    let n = bytes[..most]
        .iter()
        .position(|b| *b == b'\n')
        .unwrap_or(most);
    line[..n].copy_from_slice(&bytes[..n]);
    n
}

impl Feeding {
    // Before the first byte: one line buffer, zero-filled at the start, serves order lines and trace lines.
    pub fn start() -> Feeding
        ensures { result ≡ Feeding·start }
    {
        Feeding {
            reading: Reading::start(),
            answer: 0,
            len: 0,
            line: [0; LONGEST],
        }
    }

    // More bytes of the input. (`step` and this have one call each in the program, so that both are made part of it.)
    pub fn feed(&mut self, bytes: &[u8], stacks: &mut [u32], counts: &mut [u32])
        ensures { Feeds self.old bytes.now stacks.old counts.old
            self.new stacks.new counts.new }
    {
        if self.answer != 0 {
            return;
        }
        let mut rest = bytes;
        while !rest.is_empty() {
            if self.reading.lines >= LINES_MOST {
                return self.refuse_line();
            }
            let len = self.len as usize;
            let n = copy_line(rest, &mut self.line[len..]);
            self.len = (len + n) as u8;
            // Where no byte comes next, the slice ends within the line.
            let Some((byte, more)) = rest[n..].split_first() else {
                return;
            };
            if *byte != b'\n' {
                return self.refuse_line();
            }
            self.end_line(stacks, counts);
            if self.answer != 0 {
                return;
            }
            rest = more;
        }
    }

    // The LF of the line that has begun.
    fn end_line(&mut self, stacks: &mut [u32], counts: &mut [u32])
        ensures { EndsLine self.old stacks.old counts.old self.new stacks.new counts.new }
    {
        let len = self.len;
        let step = self
            .reading
            .step(&self.line[..len as usize], stacks, counts);
        self.answer = answer_of(&step);
        self.len = 0;
    }

    // It is refused before it ends: it is one too many, or too long.
    fn refuse_line(&mut self)
        ensures { RefusesLine self.old self.new }
    {
        self.answer = u32::from(self.reading.long_line());
    }

    // No line comes any more.
    pub fn ended(&mut self)
        ensures { Ends self.old self.new }
    {
        if self.answer != 0 {
            return;
        }
        self.answer = answer_of(&self.reading.ended());
    }
}
