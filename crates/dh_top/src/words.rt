//! The words of the command line.

ghost use Rattle.std.specs.Prelude.{◌≡◌, ◌≤◌, ℕ, Ok, Err, map, string_bytes, codes, MatchResult};
ghost use Rattle.std.specs.Char.{is_ascii_digit};
ghost use Rattle.std.specs.List.{list_all};
ghost use Rattle.dh_syntax.specs.Expressions.Numbers.{bytes_eq};
ghost use Rattle.dh_command.specs.Words.{verb_of, is_count, workers_of, operands, counted, options, command_of, behind_workers, operand_words};

use dh_command::{Command, Verb};
use dh_explain::check_rule;
use dh_files::check_files;
use dh_gen::check_number;
use dh_steps::check_places;
use dh_syntax::{DEFAULT_WORKERS, MOST_WORKERS};

/// The command that a word names.
fn verb_named(word: &str) -> Option<Verb>
    ensures { result ≡ verb_of word.now }
{
    if word == "encode" {
        Some(Verb::Encode)
    } else if word == "decode" {
        Some(Verb::Decode)
    } else if word == "resolve" {
        Some(Verb::Resolve)
    } else if word == "type" {
        Some(Verb::Type)
    } else if word == "normalize" {
        Some(Verb::Normalize)
    } else if word == "hash" {
        Some(Verb::Hash)
    } else if word == "to-json" {
        Some(Verb::ToJson)
    } else if word == "freeze" {
        Some(Verb::Freeze)
    } else if word == "batch" {
        Some(Verb::Batch)
    } else if word == "steps" {
        Some(Verb::Steps)
    } else if word == "gen" {
        Some(Verb::Gen)
    } else if word == "explain" {
        Some(Verb::Explain)
    } else if word == "help" {
        Some(Verb::Help)
    } else if word == "--help" {
        Some(Verb::Help)
    } else if word == "-h" {
        Some(Verb::Help)
    } else if word == "--version" {
        Some(Verb::Version)
    } else {
        None
    }
}

/// Whether all of these characters are decimal digits.
fn are_digits(bytes: &[u8]) -> bool
    ensures { result ≡ list_all is_ascii_digit bytes.now }
{
    bytes.iter().all(|b| b.is_ascii_digit())
}

/// Whether a word is a number in decimal without leading zeros, and not 0.
fn is_count(word: &[u8]) -> bool
    ensures { result ≡ is_count word.now }
{
    match word {
        [] => false,
        [first, ..] => *first != b'0' && are_digits(word),
    }
}

/// Whether a word says that a number of workers follows.
fn is_workers(word: &str) -> bool
    ensures { result ≡ bytes_eq word.now (codes "--workers") }
{
    word == "--workers"
}

/// How many workers a word asks for.
fn workers_of(word: &str) -> Option<u32>
    ensures { result ≡ workers_of word.now }
{
    if !is_count(word.as_bytes()) {
        return None;
    }
    let workers = u32::from_str_radix(word, 10).ok()?;
    if workers <= MOST_WORKERS {
        Some(workers)
    } else {
        None
    }
}

/// Whether these words, of which the first is the word of this number, may be the operands of a command. `Err` is the number of the
/// first of them that may not.
fn check_operands(verb: Verb, at: u32, rest: &[String]) -> Result<(), u32>
    requires { at ≤ 4 }
    ensures { MatchResult result
        (λ _. (workers : ℕ) → operands verb workers at (map string_bytes rest.now) ≡ Ok (record { verb = verb; workers = workers }))
        (λ k. (workers : ℕ) → operands verb workers at (map string_bytes rest.now) ≡ Err k) }
{
    if verb.takes_rule() {
        check_rule(at, rest)
    } else if verb.takes_files() {
        check_files(at, rest)
    } else if verb.takes_number() {
        check_number(at, rest)
    } else {
        check_places(verb.most_operands(), at, rest)
    }
}

/// A command with its operands, which begin at the word of this number.
fn with_operands(verb: Verb, workers: u32, at: u32, rest: &[String]) -> Result<Command, u32>
    requires { at ≤ 4 }
    ensures { MatchResult result
        (λ c. operands verb workers at (map string_bytes rest.now) ≡ Ok c)
        (λ k. operands verb workers at (map string_bytes rest.now) ≡ Err k) }
{
    match check_operands(verb, at, rest) {
        Ok(()) => Ok(Command { verb, workers }),
        Err(k) => Err(k),
    }
}

/// What stands behind `--workers`.
fn read_workers(verb: Verb, rest: &[String]) -> Result<Command, u32>
    ensures { MatchResult result
        (λ c. counted verb (map string_bytes rest.now) ≡ Ok c)
        (λ k. counted verb (map string_bytes rest.now) ≡ Err k) }
{
    let Some((word, rest)) = rest.split_first() else {
        return Err(3);
    };
    let Some(workers) = workers_of(word.as_str()) else {
        return Err(3);
    };
    with_operands(verb, workers, 4, rest)
}

/// What stands behind the name of a command.
fn read_options(verb: Verb, rest: &[String]) -> Result<Command, u32>
    ensures { MatchResult result
        (λ c. options verb (map string_bytes rest.now) ≡ Ok c)
        (λ k. options verb (map string_bytes rest.now) ≡ Err k) }
{
    let Some((word, more)) = rest.split_first() else {
        return with_operands(verb, DEFAULT_WORKERS, 2, rest);
    };
    if is_workers(word.as_str()) {
        read_workers(verb, more)
    } else {
        with_operands(verb, DEFAULT_WORKERS, 2, rest)
    }
}

/// What the words after the program's name ask for. `Err` is the number, from 1, of the first word that makes them
/// no prefix of a command line, and one more than their count where words are wanting.
pub fn read_words(words: &[String]) -> Result<Command, u32>
    ensures { MatchResult result
        (λ c. command_of (map string_bytes words.now) ≡ Ok c)
        (λ k. command_of (map string_bytes words.now) ≡ Err k) }
{
    let Some((word, rest)) = words.split_first() else {
        return Err(1);
    };
    let Some(verb) = verb_named(word.as_str()) else {
        return Err(1);
    };
    read_options(verb, rest)
}

/// The words behind `--workers` and its number, where these stand first.
fn behind_workers(rest: &[String]) -> &[String]
    ensures { map string_bytes result.now ≡ behind_workers (map string_bytes rest.now) }
{
    match rest.split_first() {
        Some((word, more)) if is_workers(word.as_str()) => match more.split_first() {
            Some((_, operands)) => operands,
            None => more,
        },
        _ => rest,
    }
}

/// The operands of a command line.
pub(crate) fn operands_of(words: &[String]) -> &[String]
    ensures { map string_bytes result.now ≡ operand_words (map string_bytes words.now) }
{
    match words.split_first() {
        Some((_, rest)) => behind_workers(rest),
        None => words,
    }
}
