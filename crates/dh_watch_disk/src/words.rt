//! The words that name locations.

ghost use Rattle.std.specs.Prelude.{◌≡◌, All, IfErr, IfOk, map, string_bytes};
ghost use Rattle.dh_script.specs.Locations.{IsPlace};
ghost use Rattle.dh_syntax.specs.Imports.Locations.{loc_text};
ghost use Rattle.dh_watch_laws.specs.ScriptLines.{SpellsLoc};
ghost use Rattle.dh_watch_disk.specs.Inside.Rounds.{IsMisusedBy, IsWrong, IsWrongWord};
ghost use Rattle.dh_watch_disk.specs.Words.{AreLocated, Name};

use dh_paths::loc_text;
use dh_script::read_location;
use dh_syntax::{Loc, Piece};
use std::alloc::{AllocError, Global};

/// Why words name no locations.
#[derive(Clone, Copy, Debug)]
pub(crate) enum WordFault {
    /// The first that names none, or that lacks, by its number from 1.
    Word(usize),
    Memory,
}

/// The location that a word spells, which has this number.
fn location(alloc: Global, word: &str, number: usize) -> Result<Loc, WordFault>
    ensures spelled { IfOk result (SpellsLoc word.now) }
    ensures place { IfOk result IsPlace }
    ensures wrong { IfErr result (IsWrongWord word.now number) }
{
    match read_location(alloc, word.as_bytes()) {
        Ok(loc) => match loc {
            Some(loc) => Ok(loc),
            None => Err(WordFault::Word(number)),
        },
        Err(_) => Err(WordFault::Memory),
    }
}

/// The locations that words spell, of which the first is the second of the program.
fn spelled(alloc: Global, words: &[String]) -> Result<Vec<Loc>, WordFault>
    ensures located { IfOk result (λ locs. AreLocated (map string_bytes words.now) locs.items) }
    ensures places { IfOk result (λ locs. All IsPlace locs.items) }
    ensures wrong { IfErr result (IsWrong (map string_bytes words.now)) }
{
    let mut locs = Vec::new(alloc);
    for (i, word) in words.iter().enumerate() {
        match location(alloc, word.as_str(), i + 2) {
            Ok(loc) => match locs.push(loc) {
                Ok(()) => {}
                Err(_) => return Err(WordFault::Memory),
            },
            Err(fault) => return Err(fault),
        }
    }
    Ok(locs)
}

/// The locations that words name, of which the first names none. There is at least one.
pub(crate) fn locations(alloc: Global, words: &[String]) -> Result<Vec<Loc>, WordFault>
    ensures named { IfOk result (λ locs. Name (map string_bytes words.now) locs.items) }
    ensures places { IfOk result (λ locs. All IsPlace locs.items) }
    ensures misused { IfErr result (IsMisusedBy (map string_bytes words.now)) }
{
    let behind = match words.split_first() {
        Some((_, behind)) => behind,
        None => return Err(WordFault::Word(2)),
    };
    if behind.is_empty() {
        return Err(WordFault::Word(2));
    }
    spelled(alloc, behind)
}

/// The text of each location.
pub(crate) fn places_of(alloc: Global, locs: &[Loc]) -> Result<Vec<Piece>, AllocError>
    ensures { IfOk result (λ places. places.items ≡ map loc_text locs.now) }
{
    let mut places = Vec::new(alloc);
    for loc in locs {
        places.push(loc_text(alloc, loc)?)?;
    }
    Ok(places)
}
