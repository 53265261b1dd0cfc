//! Files as words of a command line.

ghost use Rattle.std.specs.Prelude.{◌≡◌, ◌<◌, ◌≤◌, ◌+◌, ◌^◌, IfOk, IsOk, Err, MatchResult, map, string_bytes};
ghost use Rattle.dh_syntax.specs.Text.Characters.{begins};
ghost use Rattle.dh_files.specs.FileWords.{begins_as_path, file_text as text_of_file, is_file, more_files, operand_files};
ghost use Rattle.dh_files.specs.Inside.Walked.{behind_slash};

use crate::paths::are_components;
use std::alloc::{AllocError, Global};

/// The most files of one command line.
const MOST_FILES: u32 = 256;

/// Whether a word begins as a local location does.
fn begins_as_path(word: &[u8]) -> bool
    ensures { result ≡ begins_as_path word.now }
{
    word.starts_with(b"/")
        || word.starts_with(b"./")
        || word.starts_with(b"../")
        || word.starts_with(b"~/")
}

/// What stands behind the first slash of the location that a word stands for.
fn behind_slash(word: &[u8]) -> &[u8]
    ensures { result.now ≡ behind_slash word.now }
{
    if word.starts_with(b"../") {
        &word[3..]
    } else if word.starts_with(b"./") || word.starts_with(b"~/") {
        &word[2..]
    } else if word.starts_with(b"/") {
        &word[1..]
    } else {
        word
    }
}

/// Whether a word names a file: the whole of it is a location, or the whole of `./` and it.
fn is_file(word: &str) -> bool
    ensures { result ≡ is_file word.now }
{
    are_components(behind_slash(word.as_bytes()))
}

/// Whether each of these words names a file, and there are at most so many. `Err` is the number of the first word that names none or is
/// one too many, where the first of them has the number `at`.
fn check_more(most: u32, at: u32, words: &[String]) -> Result<(), u32>
    requires { at + most < 2 ^ 32 }
    ensures { MatchResult result
        (λ _. IsOk (more_files most at (map string_bytes words.now)))
        (λ k. more_files most at (map string_bytes words.now) ≡ Err k) }
{
    let mut left = most;
    let mut number = at;
    for word in words {
        if left == 0 {
            return Err(number);
        }
        if !is_file(word.as_str()) {
            return Err(number);
        }
        left -= 1;
        number += 1;
    }
    Ok(())
}

/// Whether these words name files: at least one and at most 256 of them. `Err` is the number of the first word that names none, is
/// wanting or is one too many, where the first of them has the number `at`. It takes no memory.
pub fn check_files(at: u32, words: &[String]) -> Result<(), u32>
    requires { at + 256 < 2 ^ 32 }
    ensures { MatchResult result
        (λ _. IsOk (operand_files at (map string_bytes words.now)))
        (λ k. operand_files at (map string_bytes words.now) ≡ Err k) }
{
    if words.is_empty() {
        return Err(at);
    }
    check_more(MOST_FILES, at, words)
}

/// The text of the import that a word stands for.
pub fn file_text(alloc: Global, word: &str) -> Result<Vec<u8>, AllocError>
    ensures { IfOk result (λ text. text.items ≡ text_of_file word.now) }
{
    let mut text = Vec::new(alloc);
    if !begins_as_path(word.as_bytes()) {
        text.extend_from_slice(b"./")?;
    }
    text.extend_from_slice(word.as_bytes())?;
    Ok(text)
}
