// The readers of one line, given without its LF: of a trace line and of an order line (SCOPE,
// "Program, order lines and din lines").
#![tactic(auto)]

ghost use Rattle.std.specs.Prelude.{◌≡◌, ◌+◌, ◌≤◌};
ghost use Rattle.units.specs.Refusals.{number_of};
ghost use Rattle.lines.specs.TraceLine.{bad_at, labelled, trace_line_of};
ghost use Rattle.lines.specs.OrderLine.{order_line_of, counts_kind};
ghost use Rattle.lines.specs.Said.{trace_said, order_said};
ghost use Rattle.lines.specs.Parts.{is_label};
ghost use Rattle.lines.specs.Results.{good_trace, bad_trace, trace_read, order_read};

use decimal::{is_whole, number_after};
use hex::{blanks, hex_digits, is_blank};
use units::{Addr, Refusal};

mod decimal;
mod hex;

// What a reference does: labels 0 to 3.
#[derive(Clone, Copy, Debug, PartialEq, Eq)]
pub enum Kind {
    Read,
    Write,
    Fetch,
    Unknown,
}

// What a good line of the trace reads as.
#[derive(Clone, Copy, Debug, PartialEq, Eq)]
pub enum TraceLine {
    Ref(Kind, Addr),
    // Label 4, an escape: well-formed, and no reference.
    Escape,
}

// Why a line of the trace is refused, and where: at the first byte that cannot stand there, or one past the end.
// Columns are bytes, counted from 1.
#[derive(Clone, Copy, Debug, PartialEq, Eq)]
pub struct BadLine {
    pub refusal: Refusal,
    pub column: u32,
}

// What an order counts: labels 0 to 3, label 2, or labels 0 and 1.
#[derive(Clone, Copy, Debug, PartialEq, Eq)]
pub enum Kinds {
    All,
    Fetch,
    Data,
}

// What a good line of the order reads as. A number above 32 bits is handed on as 4294967295, outside every limit.
#[derive(Clone, Copy, Debug, PartialEq, Eq)]
pub enum OrderLine {
    Bmin(u32),
    Bmax(u32),
    Smax(u32),
    Ways(u32),
    Room(u32),
    Refs(u32),
    Kinds(Kinds),
    Begin,
}

// "One line buffer of 255 bytes": the longest line, its LF not counted.
pub const LONGEST: usize = 255;

// The column of the first byte that it has no room for.
pub const PAST_LONGEST: u32 = 256;

// A label of the format.
fn is_label(b: u8) -> bool
    ensures { result ≡ is_label b }
{
    matches!(b, b'0'..=b'4')
}

// A well-formed line with this label and address.
fn labelled(label: u8, address: u32) -> TraceLine
    ensures { good_trace result ≡ labelled label address }
{
    match label {
        b'0' => TraceLine::Ref(Kind::Read, Addr(address)),
        b'1' => TraceLine::Ref(Kind::Write, Addr(address)),
        b'2' => TraceLine::Ref(Kind::Fetch, Addr(address)),
        b'3' => TraceLine::Ref(Kind::Unknown, Addr(address)),
        _ => TraceLine::Escape,
    }
}

// A line that is wrong at the byte of this place, counted from 0.
fn bad_at(refusal: Refusal, place: usize) -> BadLine
    requires { place ≤ 255 }
    ensures { bad_trace result ≡ bad_at (number_of refusal) (place + 1) }
{
    BadLine {
        refusal,
        column: place as u32 + 1,
    }
}

// Reads a line of the trace, in one pass: the label, the gap, the address, and what follows it.
pub fn trace_line(line: &[u8]) -> Result<TraceLine, BadLine>
    ensures { trace_said (trace_read result) ≡ trace_said (trace_line_of line.now) }
{
    if line.len() > LONGEST {
        return Err(bad_at(Refusal::TooLong, LONGEST));
    }
    let Some((label, rest)) = line.split_first() else {
        return Err(bad_at(Refusal::BadLabel, 0));
    };
    if !is_label(*label) {
        return Err(bad_at(Refusal::BadLabel, 0));
    }
    let start = 1 + blanks(rest);
    if start == 1 {
        return Err(bad_at(Refusal::BadGap, 1));
    }
    if start == line.len() {
        return Err(bad_at(Refusal::BadAddress, line.len()));
    }
    let address = hex_digits(&line[start..]);
    let end = start + address.count;
    if end < line.len() && !is_blank(line[end]) {
        return Err(bad_at(Refusal::BadAddress, end));
    }
    Ok(labelled(*label, address.value))
}

// Reads a line of the order, wherever it stands in it.
pub fn order_line(line: &[u8]) -> Result<OrderLine, Refusal>
    ensures { order_said (order_read result) ≡ order_said (order_line_of line.now) }
{
    if line.len() > LONGEST {
        return Err(Refusal::BadOrderLine);
    }
    number_after(line, b"bmin=")
        .map(OrderLine::Bmin)
        .or_else(|| number_after(line, b"bmax=").map(OrderLine::Bmax))
        .or_else(|| number_after(line, b"smax=").map(OrderLine::Smax))
        .or_else(|| number_after(line, b"ways=").map(OrderLine::Ways))
        .or_else(|| number_after(line, b"room=").map(OrderLine::Room))
        .or_else(|| number_after(line, b"refs=").map(OrderLine::Refs))
        .or_else(|| is_whole(line, b"kinds=all").then_some(OrderLine::Kinds(Kinds::All)))
        .or_else(|| is_whole(line, b"kinds=fetch").then_some(OrderLine::Kinds(Kinds::Fetch)))
        .or_else(|| is_whole(line, b"kinds=data").then_some(OrderLine::Kinds(Kinds::Data)))
        .or_else(|| is_whole(line, b"begin=din").then_some(OrderLine::Begin))
        .ok_or(Refusal::BadOrderLine)
}

impl Kinds {
    // A reference of this kind is counted.
    pub fn counts(self, kind: Kind) -> bool
        ensures { result ≡ counts_kind self kind }
    {
        match self {
            Kinds::All => true,
            Kinds::Fetch => matches!(kind, Kind::Fetch),
            Kinds::Data => matches!(kind, Kind::Read | Kind::Write),
        }
    }
}
