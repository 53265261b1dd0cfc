//! The word of a command line that names a text.

ghost use Rattle.std.specs.Prelude.{◌≡◌, ◌≤◌, ◌+◌, ◌<◌, ◌^◌, IsOk, Ok, Err, MatchResult, map, string_bytes};
ghost use Rattle.dh_gen.specs.Numbers.{most_number};
ghost use Rattle.dh_gen.specs.NumberWords.{operand_number};

use crate::numbers::number_of;

/// Whether these words, of which the first is the word of this number of its line, are one number of a text. `Err` is the number of the
/// first of them that is none or is one too many, and one more than the number of words where there is no word.
pub fn check_number(at: u32, words: &[String]) -> Result<(), u32>
    requires { at + 1 < 2 ^ 32 }
    ensures { MatchResult result
        (λ _. IsOk (operand_number at (map string_bytes words.now)))
        (λ k. operand_number at (map string_bytes words.now) ≡ Err k) }
{
    let Some((word, more)) = words.split_first() else {
        return Err(at);
    };
    if number_of(word.as_str()).is_none() {
        return Err(at);
    }
    if more.is_empty() { Ok(()) } else { Err(at + 1) }
}

/// The number that these words name.
pub fn number_named(words: &[String]) -> u32
    requires { IsOk (operand_number 1 (map string_bytes words.now)) }
    ensures named { operand_number 1 (map string_bytes words.now) ≡ Ok result }
    ensures few { result ≤ most_number }
{
    let Some((word, _)) = words.split_first() else {
        unreachable!()
    };
    match number_of(word.as_str()) {
        Some(number) => number,
        None => unreachable!(),
    }
}
