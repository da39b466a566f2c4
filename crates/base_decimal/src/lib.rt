// Numbers in decimal, as arguments and in the text that `write` reads. The library's own reading of a number takes a
// sign, so the digits are read here.
#![tactic(auto)]

ghost use Rattle.std.specs.Prelude.{◌≡◌};
ghost use Rattle.base_decimal.specs.Decimal.{digit_value, more_of, word_of};

// Why a word is no number within its limit.
#[derive(Clone, Copy, Debug, PartialEq, Eq, Hash)]
pub enum NoNumber {
    TooLarge,
    NotDecimal,
}

// The value of a digit; none for any other byte.
pub fn digit(b: u8) -> Option<u8>
    ensures { result ≡ digit_value b }
{
    match b {
        b'0'..=b'9' => Some(b - b'0'),
        _ => None,
    }
}

// One digit more after those of a value; none where they give 2^64 or more.
pub fn more(value: Option<u64>, unit: u8) -> Option<u64>
    ensures { result ≡ more_of value unit }
{
    let tens = value?.checked_mul(10)?;
    tens.checked_add(u64::from(unit))
}

// A word as a number of at most `limit`. A word that has other bytes than digits is not decimal, whatever its digits.
pub fn of_word(text: &[u8], limit: u64) -> Result<u64, NoNumber>
    ensures { result ≡ word_of limit text.now }
{
    if text.is_empty() {
        return Err(NoNumber::NotDecimal);
    }
    let mut digits = Some(0);
    for &b in text {
        let Some(unit) = digit(b) else {
            return Err(NoNumber::NotDecimal);
        };
        digits = more(digits, unit);
    }
    match digits {
        Some(value) if value <= limit => Ok(value),
        _ => Err(NoNumber::TooLarge),
    }
}
