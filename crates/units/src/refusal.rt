// The refusals (SCOPE, "Refusal numbers"), each with its number; 11 is no longer given, and 0 is no refusal: done.
ghost use Rattle.std.specs.Prelude.{◌≡◌};
ghost use Rattle.units.specs.Refusals.{number_of, answer_of, has_column};

// Done.
pub const DONE: u32 = 0;

#[derive(Clone, Copy, Debug, PartialEq, Eq)]
pub enum Refusal {
    // An order number, or the b or s of a strip, is outside its limits.
    OutsideLimits = 1,
    // The stack table is shorter than the order needs.
    ShortStacks = 2,
    // The count table is shorter than the order needs.
    ShortCounts = 3,
    // The state has a used length above room for a block size of the order, or references above refs.
    ForeignState = 4,
    // The references taken equal refs.
    RefsReached = 5,
    // At some block size the block is new and its stack is full.
    StackFull = 6,
    // A count to be raised is not below the references taken, or the hits to be summed exceed them.
    CountOver = 7,
    // Asked for a b, s or w that the order lacks.
    NotInOrder = 8,
    // A ratio asked with no references taken.
    NoReferences = 9,
    // An order line is malformed, out of place or missing.
    BadOrderLine = 10,
    // The filter table is shorter than 2^s entries.
    ShortFilter = 12,
    // The output is shorter than the references kept.
    ShortOutput = 13,
    // A trace line is malformed in its label.
    BadLabel = 14,
    // In the gap after the label.
    BadGap = 15,
    // In its address, or in the byte right after it.
    BadAddress = 16,
    // A trace line is too long.
    TooLong = 17,
    // The program's input has more than 4,294,967,295 lines.
    TooManyLines = 26,
}

impl From<Refusal> for u32 {
    ghost from_gives = { λ refusal number. number ≡ number_of refusal };

    fn from(refusal: Refusal) -> u32 {
        refusal as u32
    }
}

// The number that a call answers with: 0, or that of its refusal.
pub fn answer_of<T>(called: &Result<T, Refusal>) -> u32
    ensures { result ≡ answer_of called.now }
{
    match called {
        Ok(_) => DONE,
        Err(refusal) => u32::from(*refusal),
    }
}

// 14 to 17, which a trace line is refused with: they alone are told with a column. (Of a number, since it is promised of every number, as the
// printed refusal is.)
pub fn has_column(answer: u32) -> bool
    ensures { result ≡ has_column answer }
{
    (Refusal::BadLabel as u32..=Refusal::TooLong as u32).contains(&answer)
}
