// The parts of a trace line: blanks and hex digits.
ghost use Rattle.std.specs.Prelude.{◌≡◌};
ghost use Rattle.lines.specs.Bytes.{is_blank};
ghost use Rattle.lines.specs.Parts.{blanks, hex_digit, HexDigits};

// Hex digits that were read: their value, and how many they are. (Two results, and no buffer.)
#[derive(Clone, Copy)]
pub(crate) struct Digits {
    pub value: u32,
    pub count: usize,
}

// "1 to 8 hex digits"
const HEX_MOST: usize = 8;

pub(crate) fn is_blank(b: u8) -> bool
    ensures { result ≡ is_blank b }
{
    b == b' ' || b == b'\t'
}

// The value of a hex digit.
fn hex_digit(b: u8) -> Option<u32>
    ensures { result ≡ hex_digit b }
{
    match b {
        b'0'..=b'9' => Some(u32::from(b - b'0')),
        b'a'..=b'f' => Some(u32::from(b - b'a') + 10),
        b'A'..=b'F' => Some(u32::from(b - b'A') + 10),
        _ => None,
    }
}

// How many blanks stand at the front.
pub(crate) fn blanks(bytes: &[u8]) -> usize
    ensures { result ≡ blanks bytes.now }
{
    bytes.iter().take_while(|b| is_blank(**b)).count()
}

// Reads the hex digits at the front, at most 8; one that comes after them is left to the caller.
pub(crate) fn hex_digits(bytes: &[u8]) -> Digits
    ensures { HexDigits bytes.now result.value result.count }
{
    let most = &bytes[..bytes.len().min(HEX_MOST)];
    let mut value = 0;
    for (count, b) in most.iter().enumerate() {
        let Some(digit) = hex_digit(*b) else {
            return Digits { value, count };
        };
        value = value * 16 + digit;
    }
    Digits {
        value,
        count: most.len(),
    }
}
