//! Asking locations, and writing the lines that changed.

ghost use Rattle.std.specs.Prelude.{◌≡◌, All, IfErr, IfOk, OnErr, OnOk, length, map, slice_get};
ghost use Rattle.std.specs.Option.{option_copied};
ghost use Rattle.dh_script.specs.Locations.{IsPlace};
ghost use Rattle.dh_streams.specs.Streams.{Gains, Stops, output};
ghost use Rattle.dh_syntax.specs.Imports.Locations.{loc_text};
ghost use Rattle.dh_syntax.specs.declared.locations.Loc.{Loc as Location};
ghost use Rattle.dh_watch_disk.specs.Inside.Rounds.{AfterAsk, HasAsked, HasHalted};
ghost use Rattle.dh_watch_disk.specs.Showing.{IsTold, shown, told_line};
ghost use Rattle.dh_watching.specs.Steps.{state};

use crate::told::{Halt, Told};
use dh_ports::{Sink, WriteError};
use dh_syntax::{Loc, Piece};
use dh_watching::{Watches, write_answer, write_refusal};
use std::alloc::Global;

/// Asks a location.
fn asked<W: Watches>(watch: &mut W, loc: &Loc) -> Told
    requires place { IsPlace loc.now }
    requires agrees { W.agrees watch.old }
    ensures agrees { W.agrees watch.new }
    ensures told { IsTold (state (W.now watch.old) (W.kept watch.old) (W.asked watch.old) (W.faults watch.old)) (state (W.now watch.new) (W.kept watch.new) (W.asked watch.new) (W.faults watch.new)) loc.now result }
{
    match watch.ask(loc) {
        Ok(line) => Told::Line(line),
        Err(fault) => Told::Refused(fault),
    }
}

/// Writes the line of what is told of a location.
fn write_told<O: Sink>(place: &str, told: &Told, out: &mut O) -> Result<(), WriteError>
    ensures ok { OnOk result ((l : Location) → place.now ≡ loc_text l → Gains (output (O.written out.old) (O.written out.new) (O.faults out.old) (O.faults out.new)) (told_line l told.now)) }
    ensures err { OnErr result ((l : Location) → place.now ≡ loc_text l → Stops (output (O.written out.old) (O.written out.new) (O.faults out.old) (O.faults out.new)) (told_line l told.now)) }
{
    match told {
        Told::Line(line) => write_answer(out, place, line),
        Told::Refused(fault) => write_refusal(out, place, *fault),
    }
}

/// Writes the line of what is told now of a location, unless the same text was told before.
fn show<O: Sink>(
    place: &str,
    before: Option<&Told>,
    now: &Told,
    out: &mut O,
) -> Result<(), WriteError>
    ensures ok { OnOk result ((l : Location) → place.now ≡ loc_text l → Gains (output (O.written out.old) (O.written out.new) (O.faults out.old) (O.faults out.new)) (shown l (option_copied before.entry) now.now)) }
    ensures err { OnErr result ((l : Location) → place.now ≡ loc_text l → Stops (output (O.written out.old) (O.written out.new) (O.faults out.old) (O.faults out.new)) (shown l (option_copied before.entry) now.now)) }
{
    match before {
        None => write_told(place, now, out),
        Some(before) => {
            if before.is_same(now) {
                return Ok(());
            }
            write_told(place, now, out)
        }
    }
}

/// Asks a location, and writes its line unless the same text was told before.
fn ask_one<W: Watches, O: Sink>(
    watch: &mut W,
    loc: &Loc,
    place: &str,
    before: Option<&Told>,
    out: &mut O,
) -> Result<Told, Halt>
    requires place { IsPlace loc.now }
    requires named { place.now ≡ loc_text loc.now }
    requires agrees { W.agrees watch.old }
    ensures agrees { W.agrees watch.new }
    ensures asks { AfterAsk (state (W.now watch.old) (W.kept watch.old) (W.asked watch.old) (W.faults watch.old)) (state (W.now watch.new) (W.kept watch.new) (W.asked watch.new) (W.faults watch.new)) loc.now (option_copied before.entry)
        (output (O.written out.old) (O.written out.new) (O.faults out.old) (O.faults out.new)) result }
{
    let now = asked(watch, loc);
    match show(place, before, &now, out) {
        Ok(()) => Ok(now),
        Err(_) => Err(Halt::Cut),
    }
}

/// What was told of the location of this number.
fn told_at(told: &[Told], at: usize) -> Option<&Told>
    ensures { option_copied result ≡ slice_get told.now at }
{
    told.get(at)
}

/// Asks each location, and writes the lines that changed since this was told.
pub(crate) fn ask_all<W: Watches, O: Sink>(
    alloc: Global,
    locs: &[Loc],
    places: &[Piece],
    watch: &mut W,
    before: &[Told],
    out: &mut O,
) -> Result<Vec<Told>, Halt>
    requires fit { All IsPlace locs.now }
    requires named { places.now ≡ map loc_text locs.now }
    requires agrees { W.agrees watch.old }
    ensures agrees { W.agrees watch.new }
    ensures asks { IfOk result (λ told. HasAsked locs.now before.now (state (W.now watch.old) (W.kept watch.old) (W.asked watch.old) (W.faults watch.old)) (state (W.now watch.new) (W.kept watch.new) (W.asked watch.new) (W.faults watch.new)) (length locs.now)
        (output (O.written out.old) (O.written out.new) (O.faults out.old) (O.faults out.new)) told.items) }
    ensures halts { IfErr result (HasHalted locs.now before.now (state (W.now watch.old) (W.kept watch.old) (W.asked watch.old) (W.faults watch.old)) (state (W.now watch.new) (W.kept watch.new) (W.asked watch.new) (W.faults watch.new))
        (output (O.written out.old) (O.written out.new) (O.faults out.old) (O.faults out.new))) }
{
    let mut told = Vec::new(alloc);
    for (i, loc) in locs.iter().enumerate() {
        match ask_one(watch, loc, places[i].as_str(), told_at(before, i), out) {
            Ok(now) => match told.push(now) {
                Ok(()) => {}
                Err(_) => return Err(Halt::Memory),
            },
            Err(halt) => return Err(halt),
        }
    }
    Ok(told)
}
