//! The numbers of tables, words and certificates.

ghost use Rattle.std.specs.Prelude.{◌≡◌, ◌<◌, ◌≤◌, ◌^◌, true, length, IfSome};
ghost use Rattle.std.specs.List.{list_all};
ghost use Rattle.std.specs.Char.{is_ascii_digit};
ghost use Rattle.optra_records.specs.Numbers.{is_number, number_of, is_plain_number, plain_number_of, value_of};

/// The number that a text writes in 1 to 10 ASCII digits, zeros in front allowed. None where it is anything else.
#[tactic(auto, unfolding(crate::specs::Numbers::number_of))]
pub fn number(text: &[u8]) -> Option<u64>
    ensures value { result ≡ number_of text.now }
    ensures small { IfSome result (λ n. n < 10 ^ 10) }
{
    if is_number(text) {
        Some(digits(text))
    } else {
        None
    }
}

/// The number that a text writes as it is printed: `0`, or 1 to 18 ASCII digits without a zero in front. None where it
/// is anything else.
#[tactic(auto, unfolding(crate::specs::Numbers::plain_number_of))]
pub fn plain_number(text: &[u8]) -> Option<u64>
    ensures value { result ≡ plain_number_of text.now }
    ensures small { IfSome result (λ n. n < 10 ^ 18) }
{
    if is_plain_number(text) {
        Some(digits(text))
    } else {
        None
    }
}

/// Whether a text is 1 to 10 digits.
fn is_number(text: &[u8]) -> bool
    ensures { result ≡ is_number text.now }
{
    if text.is_empty() || text.len() > 10 {
        return false;
    }
    are_digits(text)
}

/// Whether a text is `0`, or 1 to 18 digits without a zero in front.
fn is_plain_number(text: &[u8]) -> bool
    ensures { result ≡ is_plain_number text.now }
{
    if text.is_empty() || text.len() > 18 || !are_digits(text) {
        return false;
    }
    text.len() == 1 || text[0] != b'0'
}

fn are_digits(text: &[u8]) -> bool
    ensures { result ≡ list_all is_ascii_digit text.now }
{
    text.iter().all(|b| b.is_ascii_digit())
}

/// The number that digits write.
fn digits(text: &[u8]) -> u64
    requires few { length text.now ≤ 18 }
    requires digits { list_all is_ascii_digit text.now ≡ true }
    ensures value { result ≡ value_of text.now }
    ensures small { result < 10 ^ length text.now }
{
    let mut n = 0u64;
    'digits: for b in text {
        n = n * 10 + u64::from(*b - b'0');
    }
    n
}
