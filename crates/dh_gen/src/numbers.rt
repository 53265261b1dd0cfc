//! Numbers of texts, as words.

ghost use Rattle.std.specs.Prelude.{◌≡◌};
ghost use Rattle.std.specs.Char.{is_ascii_digit};
ghost use Rattle.std.specs.List.{list_all};
ghost use Rattle.dh_gen.specs.Numbers.{is_numeral, number_of};

/// The number of the last text.
pub const MOST_NUMBER: u32 = 4000;

/// Whether all of these characters are decimal digits.
fn are_digits(bytes: &[u8]) -> bool
    ensures { result ≡ list_all is_ascii_digit bytes.now }
{
    bytes.iter().all(|b| b.is_ascii_digit())
}

/// Whether a word is a number in decimal without leading zeros.
fn is_numeral(word: &[u8]) -> bool
    ensures { result ≡ is_numeral word.now }
{
    match word {
        [] => false,
        [_only] => are_digits(word),
        [first, _second, ..] => *first != b'0' && are_digits(word),
    }
}

/// The number of a text that a word writes.
pub(crate) fn number_of(word: &str) -> Option<u32>
    ensures { result ≡ number_of word.now }
{
    if !is_numeral(word.as_bytes()) {
        return None;
    }
    let number = u32::from_str_radix(word, 10).ok()?;
    if number <= MOST_NUMBER {
        Some(number)
    } else {
        None
    }
}
