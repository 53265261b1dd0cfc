//! Going through the orders of a script.

ghost use Rattle.std.specs.Prelude.{◌≡◌, All, MatchResult, Some, None, map};
ghost use Rattle.dh_script.specs.Locations.{IsPlace};
ghost use Rattle.dh_script.specs.Orders.{IsFit, location_of, order_of, orders_of};
ghost use Rattle.dh_script_laws.specs.Scripts.{first_fault};
ghost use Rattle.dh_streams.specs.Streams.{output};
ghost use Rattle.dh_syntax.specs.Imports.Locations.{loc_text};
ghost use Rattle.dh_watch_laws.specs.ScriptLines.{Ask, Drop, Set};
ghost use Rattle.dh_watching.specs.Inside.Gone.{AfterChange, AfterOrder, IsGone, edit_of};
ghost use Rattle.dh_watching.specs.Steps.{state};

use crate::asking::{refusal_status, write_answer, write_refusal};
use crate::watches::Watches;
use dh_command::Status;
use dh_ports::{DeskError, Sink};
use dh_script::Order;
use dh_syntax::{Bytes, Loc, Piece};
use std::alloc::Global;

/// Why the orders of a script were not gone through to their end.
#[derive(Clone, Copy, Debug)]
pub(crate) enum Halt {
    /// A change was refused.
    Refused(DeskError),
    /// A line was not written whole.
    Cut,
}

/// How far the orders of a script were gone through: the status of the lines that were written, and why there are no more.
#[derive(Clone, Copy, Debug)]
pub(crate) struct Gone {
    pub status: Status,
    pub halt: Option<Halt>,
}

/// The first of two statuses that is not good: how a run ends whose lines have these, one after the other.
pub fn first_fault(so_far: Status, next: Status) -> Status
    ensures { result ≡ first_fault so_far next }
{
    match so_far {
        Status::Ok => next,
        _ => so_far,
    }
}

/// Changes a location.
fn change<W: Watches>(watch: &mut W, loc: &Loc, bytes: Option<Bytes>) -> Result<Status, Halt>
    requires place { IsPlace loc.now }
    requires agrees { W.agrees watch.old }
    ensures agrees { W.agrees watch.new }
    ensures change { AfterChange (state (W.now watch.old) (W.kept watch.old) (W.asked watch.old) (W.faults watch.old)) (state (W.now watch.new) (W.kept watch.new) (W.asked watch.new) (W.faults watch.new)) (edit_of loc.now bytes) result }
{
    match watch.change(loc, bytes) {
        Ok(()) => Ok(Status::Ok),
        Err(fault) => Err(Halt::Refused(fault)),
    }
}

/// Asks a location, and writes its line.
fn ask<W: Watches, O: Sink>(
    watch: &mut W,
    loc: &Loc,
    place: &str,
    out: &mut O,
) -> Result<Status, Halt>
    requires fit { IsPlace loc.now }
    requires named { place.now ≡ loc_text loc.now }
    requires agrees { W.agrees watch.old }
    ensures agrees { W.agrees watch.new }
    ensures order { AfterOrder (state (W.now watch.old) (W.kept watch.old) (W.asked watch.old) (W.faults watch.old)) (state (W.now watch.new) (W.kept watch.new) (W.asked watch.new) (W.faults watch.new)) (Ask loc.now)
        (output (O.written out.old) (O.written out.new) (O.faults out.old) (O.faults out.new)) result }
{
    match watch.ask(loc) {
        Ok(line) => match write_answer(out, place, &line) {
            Ok(()) => Ok(line.status),
            Err(_) => Err(Halt::Cut),
        },
        Err(fault) => match write_refusal(out, place, fault) {
            Ok(()) => Ok(refusal_status(fault)),
            Err(_) => Err(Halt::Cut),
        },
    }
}

/// Follows one order.
fn follow<W: Watches, O: Sink>(
    alloc: Global,
    order: &Order,
    place: &str,
    watch: &mut W,
    out: &mut O,
) -> Result<Status, Halt>
    requires fit { IsFit order.now }
    requires named { place.now ≡ loc_text (location_of order.now) }
    requires agrees { W.agrees watch.old }
    ensures agrees { W.agrees watch.new }
    ensures order { AfterOrder (state (W.now watch.old) (W.kept watch.old) (W.asked watch.old) (W.faults watch.old)) (state (W.now watch.new) (W.kept watch.new) (W.asked watch.new) (W.faults watch.new)) (order_of order.now)
        (output (O.written out.old) (O.written out.new) (O.faults out.old) (O.faults out.new)) result }
{
    match order {
        Order::Set(loc, bytes) => match bytes.copied(alloc) {
            Ok(bytes) => change(watch, loc, Some(bytes)),
            Err(_) => Err(Halt::Refused(DeskError::Memory)),
        },
        Order::Drop(loc) => change(watch, loc, None),
        Order::Ask(loc) => ask(watch, loc, place, out),
    }
}

/// Goes through the orders of a script, whose locations have these texts, up to a change that is refused or a line that is not written
/// whole.
pub(crate) fn go_through<W: Watches, O: Sink>(
    alloc: Global,
    orders: &[Order],
    places: &[Piece],
    watch: &mut W,
    out: &mut O,
) -> Gone
    requires fit { All IsFit orders.now }
    requires named { places.now ≡ map (λ o. loc_text (location_of o)) orders.now }
    requires agrees { W.agrees watch.old }
    ensures agrees { W.agrees watch.new }
    ensures gone { IsGone (state (W.now watch.old) (W.kept watch.old) (W.asked watch.old) (W.faults watch.old)) (state (W.now watch.new) (W.kept watch.new) (W.asked watch.new) (W.faults watch.new)) (orders_of orders.now)
        (output (O.written out.old) (O.written out.new) (O.faults out.old) (O.faults out.new)) result }
{
    let mut status = Status::Ok;
    for (i, order) in orders.iter().enumerate() {
        match follow(alloc, order, places[i].as_str(), watch, out) {
            Ok(next) => status = first_fault(status, next),
            Err(halt) => {
                return Gone {
                    status,
                    halt: Some(halt),
                };
            }
        }
    }
    Gone { status, halt: None }
}
