//! One run of the command: its words, its input, its answer, and the delivery of it.

ghost use Rattle.std.specs.Prelude.{◌≡◌, ◌<◌, ◌⊎◌, IsTrue, map, string_bytes, vec_len};
ghost use Rattle.dh_ports.specs.Counts.{Rose};
ghost use Rattle.dh_command.specs.Words.{command_of};
ghost use Rattle.dh_top.specs.Causes.{IsCaused, TellsRefusal, has_cause, is_refusal};
ghost use Rattle.dh_top.specs.Outside.{outside, desks_for, UsesFirst};
ghost use Rattle.dh_streams.specs.Streams.{reading, output};
ghost use Rattle.dh_top.specs.Runs.{Runs, AreMisused, DeskFailed, ReadFailed};

use crate::replies::reply_to;
use dh_command::Status;
use dh_ports::{Desk, Feed, Gate, Sink, World};
use dh_streams::deliver;
use std::alloc::Global;
use std::sync::Wait;
use std::thread::Threads;

/// Runs the command: reads its words and its input, resolves imports by the desks with as many workers as the words ask for (or one
/// for each desk where there are fewer), keeps new entries of the cache at the first desk, and writes its answer. Nothing is
/// written to standard output unless the answer is whole; that of `batch` is the line of each file, with its digest or its fault.
/// Want of memory may come at any point; then `out of memory` stands on standard error.
pub fn run_dhall<
    R: Threads + Wait + Sync,
    W: World + Send + Sync,
    D: Desk<W> + Send + Drop,
    I: Feed,
    O: Sink,
    E: Sink,
    G: Gate + Sync,
>(
    rt: &R,
    alloc: Global,
    words: &[String],
    desks: &mut Vec<D>,
    input: &mut I,
    out: &mut O,
    err: &mut E,
    gate: &G,
) -> Status
    requires some { 0 < vec_len desks.old }

    // What is written, and the status, are those of the answer over what the run found by its desks (of `gen`, by desks of its
    // own), or of a fault that came before it; and an input that the command answers over that succeeds where the streams work,
    // unless memory is wanting.
    ensures runs { Runs (map string_bytes words.now)
        (reading (I.left input.old) (I.left input.new) (I.faults input.old) (I.faults input.new))
        (outside W.told W.shelved (λ d. D.asked d) (λ d. D.faults d) (λ d. D.filed d) desks.old.items desks.new.items)
        (output (O.written out.old) (O.written out.new) (O.faults out.old) (O.faults out.new))
        (output (E.written err.old) (E.written err.new) (E.faults err.old) (E.faults err.new)) result }

    // There are as many desks as before. Only those are used whose workers the words ask for, and none where no imports are resolved;
    // and only the first one keeps anything.
    ensures count { vec_len desks.new ≡ vec_len desks.old }
    ensures desks { UsesFirst (λ d. D.filed d) (desks_for (command_of (map string_bytes words.now)) (vec_len desks.old)) desks.old.items desks.new.items }

    // Where the status is that of a fault of the input, of an item that it imports, or of a limit, that is so by the text that was read
    // and by what was found.
    ensures cause { IsTrue (has_cause result) → IsCaused (map string_bytes words.now)
        (reading (I.left input.old) (I.left input.new) (I.faults input.old) (I.faults input.new))
        (outside W.told W.shelved (λ d. D.asked d) (λ d. D.faults d) (λ d. D.filed d) desks.old.items desks.new.items) result }

    // With each status but `Ok` and `Write`, also where memory is wanting, standard output is as it was, and standard error has one
    // line more: with `Memory` the line `out of memory`. Only `batch` may have written the lines of its files in place of that.
    ensures one_line { IsTrue (is_refusal result) → TellsRefusal (map string_bytes words.now) result
        (output (O.written out.old) (O.written out.new) (O.faults out.old) (O.faults out.new))
        (output (E.written err.old) (E.written err.new) (E.faults err.old) (E.faults err.new)) }

    // Words that are no command line are the one cause of `Usage`, and are answered so unless the line cannot be
    // written or memory is wanting.
    ensures usage_only { result ≡ Status.Usage → AreMisused (map string_bytes words.now) }
    ensures usage { AreMisused (map string_bytes words.now) → (result ≡ Status.Usage) ⊎ (result ≡ Status.Write) ⊎ (result ≡ Status.Memory) }

    // The faults of devices come only where that device's count of faults rose.
    ensures read_only { result ≡ Status.Read → ReadFailed
        (reading (I.left input.old) (I.left input.new) (I.faults input.old) (I.faults input.new))
        (output (O.written out.old) (O.written out.new) (O.faults out.old) (O.faults out.new))
        (output (E.written err.old) (E.written err.new) (E.faults err.old) (E.faults err.new)) }
    ensures write_only { result ≡ Status.Write → Rose (O.faults out.old) (O.faults out.new) ⊎ Rose (E.faults err.old) (E.faults err.new) }
    ensures desk_only { result ≡ Status.Desk → DeskFailed (outside W.told W.shelved (λ d. D.asked d) (λ d. D.faults d) (λ d. D.filed d) desks.old.items desks.new.items) }

    // A failed call of a device that is counted is told: of a write by `Write`, of a read by `Read` unless that line
    // cannot be written or memory is wanting.
    ensures write { (O.faults out.old < O.faults out.new) ⊎ (E.faults err.old < E.faults err.new) → result ≡ Status.Write }
    ensures read { I.faults input.old < I.faults input.new → (result ≡ Status.Read) ⊎ (result ≡ Status.Write) ⊎ (result ≡ Status.Memory) }
{
    match reply_to::<R, W, D, I, G>(rt, alloc, words, desks, input, gate) {
        Ok(reply) => deliver(&reply.out, &reply.err, reply.status, out, err),
        Err(_) => deliver(&[], b"out of memory\n", Status::Memory, out, err),
    }
}
