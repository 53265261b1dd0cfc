//! The words of a command line that ask for rules of typing.

ghost use Rattle.std.specs.Prelude.{◌≡◌, ◌≤◌, ◌+◌, ◌<◌, ◌^◌, IsOk, Ok, Err, MatchResult, map, option_map, string_bytes};
ghost use Rattle.std.specs.Char.{is_ascii_digit};
ghost use Rattle.std.specs.List.{list_all};
ghost use Rattle.dh_explain.specs.RuleWords.{is_numeral, number_of, rule_text, operand_text};

use crate::explanations::explanation;
use crate::lists::rule_list;

/// Whether all of these characters are decimal digits.
fn are_digits(bytes: &[u8]) -> bool
    ensures { result ≡ list_all is_ascii_digit bytes.now }
{
    bytes.iter().all(|b| b.is_ascii_digit())
}

/// Whether a word is a number in decimal that does not begin with 0.
fn is_numeral(word: &[u8]) -> bool
    ensures { result ≡ is_numeral word.now }
{
    match word {
        [] => false,
        [first, ..] => *first != b'0' && are_digits(word),
    }
}

/// The number that a word names.
fn number_of(word: &str) -> Option<u32>
    ensures { result ≡ number_of word.now }
{
    if !is_numeral(word.as_bytes()) {
        return None;
    }
    u32::from_str_radix(word, 10).ok()
}

/// What is told of the rule whose number a word names.
fn rule_text(word: &str) -> Option<&'static str>
    ensures { option_map (λ text. text.now) result ≡ rule_text word.now }
{
    match number_of(word) {
        Some(rule) => explanation(rule),
        None => None,
    }
}

/// Whether these words, of which the first is the word of this number of its line, are the number of a rule or none at all. `Err` is
/// the number of the first of them that is no rule's number or one too many.
pub fn check_rule(at: u32, words: &[String]) -> Result<(), u32>
    requires { at + 1 < 2 ^ 32 }
    ensures { MatchResult result
        (λ _. IsOk (operand_text at (map string_bytes words.now)))
        (λ k. operand_text at (map string_bytes words.now) ≡ Err k) }
{
    let Some((word, more)) = words.split_first() else {
        return Ok(());
    };
    if rule_text(word.as_str()).is_none() {
        return Err(at);
    }
    if more.is_empty() { Ok(()) } else { Err(at + 1) }
}

/// What is told to these words: what is told of a rule, or the list of all rules.
pub fn told(words: &[String]) -> &'static str
    requires { IsOk (operand_text 1 (map string_bytes words.now)) }
    ensures { operand_text 1 (map string_bytes words.now) ≡ Ok result.now }
{
    match words.split_first() {
        Some((word, _)) => match rule_text(word.as_str()) {
            Some(text) => text,
            None => unreachable!(),
        },
        None => rule_list(),
    }
}
