//! Numbers, read of their digits.

ghost use Rattle.std.specs.Prelude.{◌≡◌, ℕ, ◌^◌, ◌<◌, ◌≤◌, Some, IfSome, decimal};
ghost use Rattle.numerals.specs.Numerals.{number_between, plain_number_between};

/// The number from `least` to `most` that the text writes in decimal digits. Zeros may lead.
#[tactic(auto, unfolding(crate::specs::Numerals::number_between))]
pub fn number_between(text: &[u8], least: u32, most: u32) -> Option<u32>
    ensures exact { result ≡ number_between least most text.now }
    ensures least { IfSome result (λ number. least ≤ number) }
    ensures most { IfSome result (λ number. number ≤ most) }
{
    if text.is_empty() {
        return None;
    }
    let mut number = 0u64;
    for byte in text {
        if !byte.is_ascii_digit() {
            return None;
        }
        number = 10 * number + u64::from(*byte - b'0');
        if number > u64::from(most) {
            return None;
        }
    }
    if number < u64::from(least) {
        return None;
    }
    Some(number as u32)
}

/// The same, where no zero leads. So 0 itself isn't read.
#[tactic(auto, unfolding(crate::specs::Numerals::plain_number_between))]
pub fn plain_number_between(text: &[u8], least: u32, most: u32) -> Option<u32>
    ensures exact { result ≡ plain_number_between least most text.now }
    ensures least { IfSome result (λ number. least ≤ number) }
    ensures most { IfSome result (λ number. number ≤ most) }
    // It is the number's own text.
    ensures written { IfSome result (λ number. text.now ≡ decimal number) }
{
    match text {
        [b'0', ..] => None,
        _ => number_between(text, least, most),
    }
}

/// Each number of the range is read again from its own text. It does nothing.
pub fn numbers_read_back()
    ensures any { (least most number : ℕ) → least ≤ number → number ≤ most → number < 2 ^ 64 →
        number_between least most (decimal number) ≡ Some number }
    ensures plain { (least most number : ℕ) → 0 < number → least ≤ number → number ≤ most → number < 2 ^ 64 →
        plain_number_between least most (decimal number) ≡ Some number }
{}
