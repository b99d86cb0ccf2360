// The parts of an order line: whole words, and decimal numbers after a name.
ghost use Rattle.std.specs.Prelude.{◌≡◌};
ghost use Rattle.lines.specs.OrderLine.{is_whole};
ghost use Rattle.lines.specs.Parts.{decimal_number, number_after};

// "1 to 10 decimal digits"
const DECIMAL_MOST: usize = 10;

// The number that the digits stand for.
#[tactic(auto, using(crate::proofs::OrderLaws::number_zeros))]
fn decimal_number(digits: &[u8]) -> Option<u32>
    ensures { result ≡ decimal_number digits.now }
{
    if digits.is_empty() || digits.len() > DECIMAL_MOST {
        return None;
    }
    if digits[0] == b'0' && digits.len() > 1 {
        return None;
    }
    // 10 digits may be more than 32 bits hold, and must not wrap to a number within a limit.
    let mut value = 0u32;
    for b in digits {
        if !b.is_ascii_digit() {
            return None;
        }
        value = value
            .saturating_mul(10)
            .saturating_add(u32::from(*b - b'0'));
    }
    Some(value)
}

// The number after the name, where the line is no more than these.
pub(crate) fn number_after(line: &[u8], name: &[u8]) -> Option<u32>
    ensures { result ≡ number_after name.now line.now }
{
    decimal_number(line.strip_prefix(name)?)
}

// The line is these bytes and no more.
#[tactic(auto, using(crate::proofs::OrderLaws::whole_by_bytes))]
pub(crate) fn is_whole(line: &[u8], bytes: &[u8]) -> bool
    ensures { result ≡ is_whole bytes.now line.now }
{
    line == bytes
}
