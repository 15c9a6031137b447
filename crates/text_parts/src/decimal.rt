ghost use Rattle.std.specs.Prelude.{◌≡◌, ◌<◌, ◌^◌, IfSome};
ghost use Rattle.std.specs.Char.{is_ascii_digit};
ghost use Rattle.std.specs.List.{list_all};
ghost use Rattle.text_parts.specs.Decimal.{is_numeral, is_digit_count, has_leading_zero, natural_of, negative_of, whole_of, Spells};

/// The whole number that the bytes spell: `0`, or an optional `-`, a digit 1 to 9 and further digits.
/// `None` exactly where they spell none, or one of more than thirty digits.
pub fn whole(bytes: &[u8]) -> Option<i128>
    ensures value { result ≡ whole_of bytes.now }
    ensures spelled { Spells bytes.now result }
{
    signed(bytes)
}

/// The number that a numeral writes, or the number below 0 that one with a minus writes.
#[tactic(auto, unfolding(crate::specs::Decimal::whole_of))]
fn signed(bytes: &[u8]) -> Option<i128>
    ensures { result ≡ whole_of bytes.now }
{
    let (first, digits) = bytes.split_first()?;
    if *first == b'-' {
        negative(natural(digits)?)
    } else {
        Some(natural(bytes)? as i128)
    }
}

/// The number below 0 of this magnitude.
fn negative(magnitude: u128) -> Option<i128>
    requires { magnitude < 10 ^ 30 }
    ensures { result ≡ negative_of magnitude }
{
    if magnitude == 0 {
        None
    } else {
        Some(-(magnitude as i128))
    }
}

/// The number that a numeral writes.
#[tactic(auto, unfolding(crate::specs::Decimal::natural_of))]
fn natural(digits: &[u8]) -> Option<u128>
    ensures value { result ≡ natural_of digits.now }
    ensures small { IfSome result (λ n. n < 10 ^ 30) }
{
    if !is_numeral(digits) {
        return None;
    }
    let mut value = 0;
    for digit in digits {
        value = 10 * value + u128::from(*digit - b'0');
    }
    Some(value)
}

/// Whether these are one to thirty digits, of which the first is 0 only where it stands alone.
fn is_numeral(digits: &[u8]) -> bool
    ensures { result ≡ is_numeral digits.now }
{
    are_digits(digits) && (is_digit_count(digits.len()) && !has_leading_zero(digits))
}

fn are_digits(bytes: &[u8]) -> bool
    ensures { result ≡ list_all is_ascii_digit bytes.now }
{
    bytes.iter().all(|byte| byte.is_ascii_digit())
}

fn is_digit_count(count: usize) -> bool
    ensures { result ≡ is_digit_count count }
{
    matches!(count, 1..=30)
}

fn has_leading_zero(digits: &[u8]) -> bool
    ensures { result ≡ has_leading_zero digits.now }
{
    digits.len() > 1 && digits[0] == b'0'
}
