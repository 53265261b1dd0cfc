//! Looking at files again.

ghost use Rattle.std.specs.Prelude.{◌≡◌, All, IfErr, IfOk, length, map};
ghost use Rattle.dh_script.specs.Locations.{IsPlace};
ghost use Rattle.dh_streams.specs.Streams.{output};
ghost use Rattle.dh_syntax.specs.Imports.Locations.{loc_text};
ghost use Rattle.dh_watch_disk.specs.Inside.Rounds.{AfterEdit, AfterLook, HasLooked, HasStopped};
ghost use Rattle.dh_watching.specs.Steps.{state};

use crate::asking::ask_all;
use crate::sightings::{Seen, Sightings, is_found};
use crate::told::{Halt, Told, are_open};
use dh_paths::loc_text;
use dh_ports::{Desk, DeskError, Silent, Sink};
use dh_script::read_location;
use dh_syntax::{Bytes, Loc, Piece};
use dh_watch_files::OrderedLoc;
use dh_watching::Watches;
use std::alloc::{AllocError, Global};

/// Whether a location is that of a file. Nothing else is looked at again: a process keeps its environment, and the web is not asked at
/// each look.
fn is_file(loc: &Loc) -> bool {
    match loc {
        Loc::Abs(_) | Loc::Here(_) | Loc::Parent(_) | Loc::Home(_) => true,
        Loc::Http(_) | Loc::Https(_) | Loc::Env(_) | Loc::Missing => false,
    }
}

/// Whether a file, of which these bytes were found when it was last fetched, is another by now. One that cannot be read is.
fn is_edited<D: Desk<Silent>>(
    alloc: Global,
    loc: &Loc,
    bytes: Option<&Bytes>,
    desk: &mut D,
) -> Result<bool, AllocError> {
    if !is_file(loc) {
        return Ok(false);
    }
    match desk.fetch(alloc, loc) {
        Ok(got) => Ok(!is_found(bytes, &got)),
        Err(DeskError::Failed) => Ok(true),
        Err(DeskError::Memory) => Err(AllocError),
    }
}

/// The places of the files that are others by now.
fn edited_places<D: Desk<Silent>>(
    alloc: Global,
    seen: &Seen,
    desk: &mut D,
) -> Result<Vec<OrderedLoc>, AllocError> {
    let mut edited = Vec::new(alloc);
    for (place, bytes) in seen.iter() {
        if is_edited(alloc, &place.loc, bytes.as_ref(), desk)? {
            edited.push(OrderedLoc::copied(alloc, &place.loc)?)?;
        }
    }
    Ok(edited)
}

/// Takes out what was found at these places.
fn forget(seen: &mut Seen, places: &[OrderedLoc]) {
    for place in places {
        let _bytes = seen.remove(place);
    }
}

/// Tells that the file at a location is another.
fn tell_edit<W: Watches>(alloc: Global, watch: &mut W, loc: &Loc) -> Result<(), Halt>
    requires agrees { W.agrees watch.old }
    ensures agrees { W.agrees watch.new }
    ensures edits { AfterEdit (state (W.now watch.old) (W.kept watch.old) (W.asked watch.old) (W.faults watch.old)) (state (W.now watch.new) (W.kept watch.new) (W.asked watch.new) (W.faults watch.new)) result }
{
    let text = loc_text(alloc, loc)?;
    // What is spelled is the location itself. That it can be spelled is known of what is read of a text.
    let place = read_location(alloc, text.as_str().as_bytes())?;
    let Some(place) = place else {
        return Ok(());
    };
    watch.change(&place, None)?;
    Ok(())
}

/// Tells that the files at these places are others.
fn tell_edits<W: Watches>(alloc: Global, watch: &mut W, places: &[OrderedLoc]) -> Result<(), Halt>
    requires agrees { W.agrees watch.old }
    ensures agrees { W.agrees watch.new }
    ensures edits { AfterEdit (state (W.now watch.old) (W.kept watch.old) (W.asked watch.old) (W.faults watch.old)) (state (W.now watch.new) (W.kept watch.new) (W.asked watch.new) (W.faults watch.new)) result }
{
    for place in places {
        tell_edit(alloc, watch, &place.loc)?;
    }
    Ok(())
}

/// Looks at each file that was fetched, and tells which are others by now; what was found at those is forgotten. Answers whether there
/// are any. No sighting of another file is copied or moved.
fn look<W: Watches, D: Desk<Silent>>(
    alloc: Global,
    watch: &mut W,
    sightings: &Sightings,
    desk: &mut D,
) -> Result<bool, Halt>
    requires agrees { W.agrees watch.old }
    ensures agrees { W.agrees watch.new }
    ensures edits { AfterLook (state (W.now watch.old) (W.kept watch.old) (W.asked watch.old) (W.faults watch.old)) (state (W.now watch.new) (W.kept watch.new) (W.asked watch.new) (W.faults watch.new)) result }
{
    let mut seen = sightings.take(alloc)?;
    let edited = edited_places(alloc, &seen, desk)?;
    forget(&mut seen, edited.as_slice());
    sightings.put_back(seen)?;
    if edited.is_empty() {
        return Ok(false);
    }
    tell_edits(alloc, watch, edited.as_slice())?;
    Ok(true)
}

/// Looks at the files, and asks the locations anew if one was edited, or if another ask may tell more.
pub(crate) fn look_and_ask<W: Watches, D: Desk<Silent>, O: Sink>(
    alloc: Global,
    locs: &[Loc],
    places: &[Piece],
    watch: &mut W,
    sightings: &Sightings,
    desk: &mut D,
    told: Vec<Told>,
    out: &mut O,
) -> Result<Vec<Told>, Halt>
    requires fit { All IsPlace locs.now }
    requires named { places.now ≡ map loc_text locs.now }
    requires agrees { W.agrees watch.old }
    ensures agrees { W.agrees watch.new }
    ensures looks { IfOk result (λ now. HasLooked locs.now told.items (state (W.now watch.old) (W.kept watch.old) (W.asked watch.old) (W.faults watch.old)) (state (W.now watch.new) (W.kept watch.new) (W.asked watch.new) (W.faults watch.new))
        (output (O.written out.old) (O.written out.new) (O.faults out.old) (O.faults out.new)) now.items) }
    ensures halts { IfErr result (HasStopped locs.now told.items (state (W.now watch.old) (W.kept watch.old) (W.asked watch.old) (W.faults watch.old)) (state (W.now watch.new) (W.kept watch.new) (W.asked watch.new) (W.faults watch.new))
        (output (O.written out.old) (O.written out.new) (O.faults out.old) (O.faults out.new))) }
{
    let edited = look(alloc, watch, sightings, desk)?;
    if !edited && !are_open(told.as_slice()) {
        return Ok(told);
    }
    ask_all(alloc, locs, places, watch, told.as_slice(), out)
}
