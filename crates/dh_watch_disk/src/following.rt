//! Files that are followed: asked at first, and again after each edit.

ghost use Rattle.std.specs.Prelude.{◌≡◌, ℕ, List, All, IfErr, IfOk, map, string_bytes};
ghost use Rattle.dh_command.specs.Lines.{usage_line};
ghost use Rattle.dh_command.specs.Responses.{line};
ghost use Rattle.dh_script.specs.Locations.{IsPlace};
ghost use Rattle.dh_streams.specs.Streams.{output};
ghost use Rattle.dh_syntax.specs.Imports.Locations.{loc_text};
ghost use Rattle.dh_watch_disk.specs.FilesRuns.{RunsFiles, pausing};
ghost use Rattle.dh_watch_disk.specs.Inside.Rounds.{EndsSo, HasShownAll, HasShownPart, ToldWord};
ghost use Rattle.dh_watch_disk.specs.Words.{Name};
ghost use Rattle.dh_watching.specs.Steps.{state};

use crate::asking::ask_all;
use crate::looking::look_and_ask;
use crate::sightings::Sightings;
use crate::told::{Halt, Told, status_of};
use crate::words::{WordFault, locations, places_of};
use dh_command::Status;
use dh_ports::{Desk, Silent, Sink};
use dh_streams::{deliver, lack_memory, tell_failure};
use dh_syntax::{Loc, Piece};
use dh_watching::{WatchFault, Watches, end_refused};
use std::alloc::{AllocError, Global};

/// What happens between two looks.
pub trait Pauses {
    ghost use Rattle.std.specs.Prelude.{◌≡◌, ℕ, Bool, true};
    ghost use Rattle.std.specs.Bool.{OnFalse, OnTrue};
    ghost use Rattle.dh_ports.specs.Counts.{one_more};

    /// How many pauses have passed. It stands still at the last value of a `u64`.
    ghost passed: { Self → ℕ };

    /// Whether none comes any more.
    ghost over: { Self → Bool };

    /// Waits for the next look. Answers whether there is one.
    fn pause(&mut self) -> bool
        ensures next { OnTrue result (passed self.new ≡ one_more (passed self.old)) }
        ensures last { OnFalse result (passed self.new ≡ passed self.old) }
        ensures over { OnFalse result (over self.new ≡ true) };
}

/// Asks locations, and again after each edit of a file that was fetched. Answers what was told last.
fn follow<W: Watches, D: Desk<Silent>, P: Pauses, O: Sink>(
    alloc: Global,
    locs: &[Loc],
    places: &[Piece],
    watch: &mut W,
    sightings: &Sightings,
    desk: &mut D,
    pauses: &mut P,
    out: &mut O,
) -> Result<Vec<Told>, Halt>
    requires fit { All IsPlace locs.now }
    requires named { places.now ≡ map loc_text locs.now }
    requires agrees { W.agrees watch.old }
    ensures agrees { W.agrees watch.new }
    ensures shows { IfOk result (λ now. HasShownAll locs.now (state (W.now watch.old) (W.kept watch.old) (W.asked watch.old) (W.faults watch.old)) (state (W.now watch.new) (W.kept watch.new) (W.asked watch.new) (W.faults watch.new))
        (pausing (P.passed pauses.old) (P.passed pauses.new) (P.over pauses.new))
        (output (O.written out.old) (O.written out.new) (O.faults out.old) (O.faults out.new)) now.items) }
    ensures halts { IfErr result (HasShownPart locs.now (state (W.now watch.old) (W.kept watch.old) (W.asked watch.old) (W.faults watch.old)) (state (W.now watch.new) (W.kept watch.new) (W.asked watch.new) (W.faults watch.new))
        (output (O.written out.old) (O.written out.new) (O.faults out.old) (O.faults out.new))) }
{
    let mut told = match ask_all(alloc, locs, places, watch, &[], out) {
        Ok(told) => told,
        Err(halt) => return Err(halt),
    };
    for _look in 0..u64::MAX {
        if !pauses.pause() {
            return Ok(told);
        }
        match look_and_ask(alloc, locs, places, watch, sightings, desk, told, out) {
            Ok(next) => told = next,
            Err(halt) => return Err(halt),
        }
    }
    Ok(told)
}

/// Ends a run that came no further.
fn end<E: Sink>(halt: Halt, err: &mut E) -> Status
    ensures { EndsSo halt (output (E.written err.old) (E.written err.new) (E.faults err.old) (E.faults err.new)) result }
{
    match halt {
        Halt::Cut => {
            tell_failure(err);
            Status::Write
        }
        Halt::Failed => end_refused(WatchFault::Failed, err),
        Halt::Memory => end_refused(WatchFault::Memory, err),
    }
}

/// Follows these locations to the end of the run.
fn follow_to_end<W: Watches, D: Desk<Silent>, P: Pauses, O: Sink, E: Sink>(
    alloc: Global,
    locs: &[Loc],
    watch: &mut W,
    sightings: &Sightings,
    desk: &mut D,
    pauses: &mut P,
    out: &mut O,
    err: &mut E,
) -> Status
    requires fit { All IsPlace locs.now }
    requires agrees { W.agrees watch.old }
    ensures agrees { W.agrees watch.new }
    ensures runs { (words : List (List ℕ)) → Name words locs.now → RunsFiles words (state (W.now watch.old) (W.kept watch.old) (W.asked watch.old) (W.faults watch.old)) (state (W.now watch.new) (W.kept watch.new) (W.asked watch.new) (W.faults watch.new))
        (pausing (P.passed pauses.old) (P.passed pauses.new) (P.over pauses.new))
        (output (O.written out.old) (O.written out.new) (O.faults out.old) (O.faults out.new))
        (output (E.written err.old) (E.written err.new) (E.faults err.old) (E.faults err.new)) result }
{
    let Ok(places) = places_of(alloc, locs) else {
        return lack_memory(out, err);
    };
    match follow(
        alloc,
        locs,
        places.as_slice(),
        watch,
        sightings,
        desk,
        pauses,
        out,
    ) {
        Ok(told) => status_of(told.as_slice()),
        Err(halt) => end(halt, err),
    }
}

/// The line that tells which word is wrong.
fn usage_line(alloc: Global, word: usize) -> Result<String, AllocError>
    ensures { IfOk result (λ text. string_bytes text ≡ line (usage_line word)) }
{
    format!(in alloc; "usage: word {word}\n")
}

/// Tells which word is wrong.
fn tell_word<O: Sink, E: Sink>(alloc: Global, word: usize, out: &mut O, err: &mut E) -> Status
    ensures { ToldWord word
        (output (O.written out.old) (O.written out.new) (O.faults out.old) (O.faults out.new))
        (output (E.written err.old) (E.written err.new) (E.faults err.old) (E.faults err.new)) result }
{
    match usage_line(alloc, word) {
        Ok(text) => deliver(&[], text.as_str().as_bytes(), Status::Usage, out, err),
        Err(_) => lack_memory(out, err),
    }
}

/// Runs the program on the word `--files` and on locations: it writes the line of each, and then, after each pause, the lines that
/// changed since, by the files that were fetched for them. The desk is another one over what is fetched from.
pub fn watch_files<W: Watches, D: Desk<Silent>, P: Pauses, O: Sink, E: Sink>(
    alloc: Global,
    words: &[String],
    watch: &mut W,
    sightings: &Sightings,
    desk: &mut D,
    pauses: &mut P,
    out: &mut O,
    err: &mut E,
) -> Status
    requires agrees { W.agrees watch.old }
    ensures agrees { W.agrees watch.new }
    ensures runs { RunsFiles (map string_bytes words.now) (state (W.now watch.old) (W.kept watch.old) (W.asked watch.old) (W.faults watch.old)) (state (W.now watch.new) (W.kept watch.new) (W.asked watch.new) (W.faults watch.new))
        (pausing (P.passed pauses.old) (P.passed pauses.new) (P.over pauses.new))
        (output (O.written out.old) (O.written out.new) (O.faults out.old) (O.faults out.new))
        (output (E.written err.old) (E.written err.new) (E.faults err.old) (E.faults err.new)) result }
{
    match locations(alloc, words) {
        Ok(locs) => follow_to_end(
            alloc,
            locs.as_slice(),
            watch,
            sightings,
            desk,
            pauses,
            out,
            err,
        ),
        Err(WordFault::Word(word)) => tell_word(alloc, word, out, err),
        Err(WordFault::Memory) => lack_memory(out, err),
    }
}
