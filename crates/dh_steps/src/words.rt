//! Places as words of a command line.

ghost use Rattle.std.specs.Prelude.{◌≡◌, ◌<◌, ◌≤◌, ◌+◌, ◌^◌, ◌==◌, ℕ, IfOk, IfSome, IsOk, Err, length, MatchResult, is_some, map, string_bytes};
ghost use Rattle.std.specs.Char.{is_ascii_digit};
ghost use Rattle.std.specs.List.{list_all, slice_split};
ghost use Rattle.std.specs.Result.{result_ok};
ghost use Rattle.dh_steps.specs.StepWords.{each, is_numeral, most_places, operand_places, part_of, place_of};

use crate::running::Places;
use dh_syntax::{Many, Path};
use std::alloc::{AllocError, Global};

/// The most places of one command line.
pub const MOST_PLACES: u32 = 256;

/// Whether all of these characters are decimal digits.
fn are_digits(bytes: &[u8]) -> bool
    ensures { result ≡ list_all is_ascii_digit bytes.now }
{
    bytes.iter().all(|b| b.is_ascii_digit())
}

/// Whether a word is a number in decimal without leading zeros.
fn is_numeral(word: &[u8]) -> bool
    ensures { result ≡ is_numeral word.now }
{
    match word {
        [] => false,
        [_only] => are_digits(word),
        [first, _second, ..] => *first != b'0' && are_digits(word),
    }
}

/// The number of a part that a word names.
fn part_of(word: &str) -> Option<u32>
    ensures { result ≡ part_of word.now }
{
    if !is_numeral(word.as_bytes()) {
        return None;
    }
    u32::from_str_radix(word, 10).ok()
}

/// Whether a word is the number of a part.
fn is_part(word: &str) -> bool
    ensures { result ≡ is_some (part_of word.now) }
{
    part_of(word).is_some()
}

/// Whether a word is numbers of parts joined by `/`.
fn are_parts(word: &str) -> bool
    ensures { result ≡ list_all (λ w. is_some (part_of w)) (slice_split (λ b. b == 47) word.now) }
{
    word.split('/').all(|part| is_part(part))
}

/// Whether a word names a place: `root`, or numbers of parts joined by `/`, each in decimal without leading zeros and below
/// 2^32.
pub(crate) fn is_place(word: &str) -> bool
    ensures { result ≡ is_some (place_of word.now) }
{
    word == "root" || are_parts(word)
}

/// The place that these numbers of parts make.
fn read_parts(alloc: Global, parts: &[&str]) -> Result<Option<Path>, AllocError>
    ensures { IfOk result (λ place. place ≡ each part_of (map (λ w. w.now) parts.now)) }
{
    let mut place = Many::new(alloc);
    for part in parts {
        match part_of(part) {
            Some(number) => place.push(number)?,
            None => return Ok(None),
        }
    }
    Ok(Some(place))
}

/// What stands between the slashes of a word.
fn parts<'a>(alloc: Global, word: &'a str) -> Result<Vec<&'a str>, AllocError>
    ensures { IfOk result (λ ws. map (λ w. w.now) ws.items ≡ slice_split (λ b. b == 47) word.now) }
{
    word.split('/').collect(alloc)
}

/// The place that a word names; none where it names no place.
pub fn read_place(alloc: Global, word: &str) -> Result<Option<Path>, AllocError>
    ensures { IfOk result (λ place. place ≡ place_of word.now) }
{
    if word == "root" {
        return Ok(Some(Many::new(alloc)));
    }
    let parts = parts(alloc, word)?;
    read_parts(alloc, parts.as_slice())
}

/// The places that these words name; none where one of them is no place.
fn read_each(alloc: Global, words: &[String]) -> Result<Option<Places>, AllocError>
    ensures { IfOk result (λ places. places ≡ each place_of (map string_bytes words.now)) }
{
    let mut places = Many::new(alloc);
    for word in words {
        match read_place(alloc, word.as_str())? {
            Some(place) => places.push(place)?,
            None => return Ok(None),
        }
    }
    Ok(Some(places))
}

/// Whether these words are places, at most so many of them. `Err` is the number of the first word that is no place or one too
/// many, where the first of them has the number `at`. It takes no memory.
pub fn check_places(most: u32, at: u32, words: &[String]) -> Result<(), u32>
    requires { at + most < 2 ^ 32 }
    ensures { MatchResult result
        (λ _. IsOk (operand_places most at (map string_bytes words.now)))
        (λ k. operand_places most at (map string_bytes words.now) ≡ Err k) }
{
    let mut left = most;
    let mut number = at;
    for word in words {
        if left == 0 {
            return Err(number);
        }
        if !is_place(word.as_str()) {
            return Err(number);
        }
        left -= 1;
        number += 1;
    }
    Ok(())
}

/// The places that these words name; none where one of them is no place or where there are more than 256.
pub fn read_places(alloc: Global, words: &[String]) -> Result<Option<Places>, AllocError>
    ensures places { IfOk result (λ places. (at : ℕ) → result_ok (operand_places most_places at (map string_bytes words.now)) ≡ places) }
    ensures few { IfOk result (λ places. IfSome places (λ ps. length ps ≤ most_places)) }
{
    if words.len() > MOST_PLACES as usize {
        return Ok(None);
    }
    read_each(alloc, words)
}
