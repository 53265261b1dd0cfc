//! One run of the program: its words, its script, and the script's orders.

ghost use Rattle.std.specs.Prelude.{◌≡◌, ℕ, List, [], All, map, string_bytes};
ghost use Rattle.dh_script.specs.Orders.{IsFit, orders_of};
ghost use Rattle.dh_script_laws.specs.Scripts.{refusal_status, refusal_text};
ghost use Rattle.dh_streams.specs.Streams.{output, reading};
ghost use Rattle.dh_watching.specs.Inside.Read.{FollowsOrders, FollowsText, IsEnded, ToldFault, refusal_of_desk};
ghost use Rattle.dh_watching.specs.Runs.{EndsWith, Runs, fault_status};
ghost use Rattle.dh_watching.specs.Steps.{refusal_of, state};

use crate::asking::{refusal_status, refusal_text};
use crate::following::{Gone, Halt, go_through};
use crate::places::places_of;
use crate::watches::{WatchFault, Watches};
use dh_command::Status;
use dh_ports::{DeskError, Feed, Sink};
use dh_script::{Order, ScriptFault, read_script};
use dh_streams::{InputFault, deliver, lack_memory, read_input, tell_failure, write_both};
use std::alloc::Global;

/// The status of a run on bytes that are no script.
fn fault_status(fault: ScriptFault) -> Status
    ensures { result ≡ fault_status fault }
{
    match fault {
        ScriptFault::TooLarge => Status::Text,
        ScriptFault::NotUtf8(_) => Status::Text,
        ScriptFault::Line(_) => Status::Usage,
        ScriptFault::Memory => Status::Memory,
    }
}

/// Tells why bytes are no script, or that memory is wanting for that.
fn tell_fault<O: Sink, E: Sink>(
    alloc: Global,
    fault: ScriptFault,
    out: &mut O,
    err: &mut E,
) -> Status
    ensures { ToldFault fault
        (output (O.written out.old) (O.written out.new) (O.faults out.old) (O.faults out.new))
        (output (E.written err.old) (E.written err.new) (E.faults err.old) (E.faults err.new)) result }
{
    match format!(in alloc; "{fault}\n") {
        Ok(text) => deliver(&[], text.as_str().as_bytes(), fault_status(fault), out, err),
        Err(_) => lack_memory(out, err),
    }
}

/// Writes what tells a refusal to standard error, as the last line of a run, and answers how the run ended.
pub fn end_refused<E: Sink>(fault: WatchFault, err: &mut E) -> Status
    ensures { EndsWith (refusal_text (refusal_of fault)) (refusal_status (refusal_of fault)) (output (E.written err.old) (E.written err.new) (E.faults err.old) (E.faults err.new)) result }
{
    match write_both(err, refusal_text(fault).as_bytes(), b"\n") {
        Ok(()) => refusal_status(fault),
        Err(_) => Status::Write,
    }
}

/// Ends a run in which a change was refused.
fn end_change<E: Sink>(fault: DeskError, err: &mut E) -> Status
    ensures { EndsWith (refusal_text (refusal_of_desk fault)) (refusal_status (refusal_of_desk fault)) (output (E.written err.old) (E.written err.new) (E.faults err.old) (E.faults err.new)) result }
{
    match fault {
        DeskError::Failed => end_refused(WatchFault::Failed, err),
        DeskError::Memory => end_refused(WatchFault::Memory, err),
    }
}

/// Ends a run whose orders were gone through so far.
fn end<E: Sink>(gone: Gone, err: &mut E) -> Status
    ensures { IsEnded gone (output (E.written err.old) (E.written err.new) (E.faults err.old) (E.faults err.new)) result }
{
    match gone.halt {
        None => gone.status,
        Some(Halt::Cut) => {
            tell_failure(err);
            Status::Write
        }
        Some(Halt::Refused(fault)) => end_change(fault, err),
    }
}

/// Follows the orders of a script.
fn follow_orders<W: Watches, O: Sink, E: Sink>(
    alloc: Global,
    orders: &[Order],
    watch: &mut W,
    out: &mut O,
    err: &mut E,
) -> Status
    requires fit { All IsFit orders.now }
    requires agrees { W.agrees watch.old }
    ensures agrees { W.agrees watch.new }
    ensures follows { FollowsOrders (orders_of orders.now)
        (state (W.now watch.old) (W.kept watch.old) (W.asked watch.old) (W.faults watch.old)) (state (W.now watch.new) (W.kept watch.new) (W.asked watch.new) (W.faults watch.new))
        (output (O.written out.old) (O.written out.new) (O.faults out.old) (O.faults out.new))
        (output (E.written err.old) (E.written err.new) (E.faults err.old) (E.faults err.new)) result }
{
    match places_of(alloc, orders) {
        Ok(places) => {
            let gone = go_through(alloc, orders, places.as_slice(), watch, out);
            end(gone, err)
        }
        Err(_) => lack_memory(out, err),
    }
}

/// Reads a script, and follows its orders.
fn follow_text<W: Watches, O: Sink, E: Sink>(
    alloc: Global,
    text: &[u8],
    watch: &mut W,
    out: &mut O,
    err: &mut E,
) -> Status
    requires agrees { W.agrees watch.old }
    ensures agrees { W.agrees watch.new }
    ensures follows { FollowsText text.now
        (state (W.now watch.old) (W.kept watch.old) (W.asked watch.old) (W.faults watch.old)) (state (W.now watch.new) (W.kept watch.new) (W.asked watch.new) (W.faults watch.new))
        (output (O.written out.old) (O.written out.new) (O.faults out.old) (O.faults out.new))
        (output (E.written err.old) (E.written err.new) (E.faults err.old) (E.faults err.new)) result }
{
    match read_script(alloc, text) {
        Ok(orders) => follow_orders(alloc, orders.as_slice(), watch, out, err),
        Err(fault) => tell_fault(alloc, fault, out, err),
    }
}

/// Runs the program without words: reads its input whole, as a script, and follows its orders.
fn run_script<W: Watches, I: Feed, O: Sink, E: Sink>(
    alloc: Global,
    watch: &mut W,
    input: &mut I,
    out: &mut O,
    err: &mut E,
) -> Status
    requires agrees { W.agrees watch.old }
    ensures agrees { W.agrees watch.new }
    ensures runs { (words : List (List ℕ)) → words ≡ [] → Runs words
        (reading (I.left input.old) (I.left input.new) (I.faults input.old) (I.faults input.new))
        (state (W.now watch.old) (W.kept watch.old) (W.asked watch.old) (W.faults watch.old)) (state (W.now watch.new) (W.kept watch.new) (W.asked watch.new) (W.faults watch.new))
        (output (O.written out.old) (O.written out.new) (O.faults out.old) (O.faults out.new))
        (output (E.written err.old) (E.written err.new) (E.faults err.old) (E.faults err.new)) result }
{
    match read_input(alloc, input) {
        Ok(text) => follow_text(alloc, text.as_slice(), watch, out, err),
        Err(InputFault::Failed) => deliver(&[], b"read failed\n", Status::Read, out, err),
        Err(InputFault::Memory) => lack_memory(out, err),
    }
}

/// Runs the program on words, of which it takes none, and on the script that its input is. The whole script is read, and each of its
/// lines is checked, before its first order is followed.
pub fn run_watch<W: Watches, I: Feed, O: Sink, E: Sink>(
    alloc: Global,
    words: &[String],
    watch: &mut W,
    input: &mut I,
    out: &mut O,
    err: &mut E,
) -> Status
    requires agrees { W.agrees watch.old }
    ensures agrees { W.agrees watch.new }
    ensures runs { Runs (map string_bytes words.now)
        (reading (I.left input.old) (I.left input.new) (I.faults input.old) (I.faults input.new))
        (state (W.now watch.old) (W.kept watch.old) (W.asked watch.old) (W.faults watch.old)) (state (W.now watch.new) (W.kept watch.new) (W.asked watch.new) (W.faults watch.new))
        (output (O.written out.old) (O.written out.new) (O.faults out.old) (O.faults out.new))
        (output (E.written err.old) (E.written err.new) (E.faults err.old) (E.faults err.new)) result }
{
    match words.first() {
        Some(_) => deliver(&[], b"usage: word 1\n", Status::Usage, out, err),
        None => run_script(alloc, watch, input, out, err),
    }
}
