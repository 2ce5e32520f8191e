//! Numbers in the input.
ghost use Rattle.std.specs.Prelude.{◌≡◌, ◌+◌, ◌*◌, ◌^◌, ◌<◌, ◌≤◌, MatchOption};
ghost use Rattle.std.specs.Char.{digit_value};
ghost use Rattle.std.specs.Fmt.{decimal};
ghost use Rattle.app_text.specs.Reading.{IsReading, IsWord};

/// The number that these bytes are the decimal digits of. There is no sign and no leading zero.
pub fn parse_number(bytes: &[u8]) -> Option<u64>
    ensures { IsReading IsWord decimal bytes.now result }
{
    if bytes.is_empty() {
        return None;
    }
    if bytes[0] == b'0' && bytes.len() > 1 {
        return None;
    }
    let mut value = 0;
    for byte in bytes {
        value = with_digit(value, *byte)?;
    }
    Some(value)
}

// The number with this digit behind it, if it is one and a word holds that number.
#[inline]
fn with_digit(value: u64, byte: u8) -> Option<u64>
    ensures { MatchOption result
        (digit_value byte < 10 → 2 ^ 64 ≤ value * 10 + digit_value byte)
        (λ more. (more ≡ value * 10 + digit_value byte) × (digit_value byte < 10) × IsWord more) }
{
    if !byte.is_ascii_digit() {
        return None;
    }
    value.checked_mul(10)?.checked_add((byte - b'0') as u64)
}
