//! Numbers as plans spell them.

ghost use Rattle.std.specs.Prelude.{◌≡◌, ◌≤◌, option_map};
ghost use Rattle.bx_plan.specs.Firsts.{digits_first, number_first};
ghost use Rattle.bx_plan.specs.Reading.{number_of};

/// The number of at most `most` that the text spells in decimal, without leading zeros.
pub fn number_of(text: &[u8], most: u32) -> Option<u32>
    ensures { result ≡ number_of most text.now }
{
    if text.is_empty() || (text.len() > 1 && text[0] == b'0') {
        return None;
    }
    let mut number = 0u64;
    for byte in text {
        if !byte.is_ascii_digit() {
            return None;
        }
        number = number * 10 + u64::from(*byte - b'0');
        if number > u64::from(most) {
            return None;
        }
    }
    Some(number as u32)
}

/// The number of at most `most` at the head of a text, in decimal without leading zeros, and what stands behind it.
pub(crate) fn number_first(text: &[u8], most: u32) -> Option<(u32, &[u8])>
    requires { 9 ≤ most }
    ensures { option_map (λ r. (r.0, r.1.now)) result ≡ number_first most text.now }
{
    let [first, behind @ ..] = text else {
        return None;
    };
    if !first.is_ascii_digit() {
        return None;
    }
    if *first == b'0' {
        return Some((0, behind));
    }
    digits_first(u32::from(*first - b'0'), behind, most)
}

/// The number that goes on by the digits at the head of a text, and what stands behind them.
fn digits_first(first: u32, text: &[u8], most: u32) -> Option<(u32, &[u8])>
    requires { first ≤ most }
    ensures { option_map (λ r. (r.0, r.1.now)) result ≡ digits_first most first text.now }
{
    let mut number = u64::from(first);
    let mut left = text;
    while let [byte, behind @ ..] = left {
        if !byte.is_ascii_digit() {
            break;
        }
        number = number * 10 + u64::from(*byte - b'0');
        if number > u64::from(most) {
            return None;
        }
        left = behind;
    }
    Some((number as u32, left))
}
