//! One run of the program, over whatever its words and its streams are.

ghost use Rattle.std.specs.Prelude.{◌≡◌, ◌<◌, List, [], drop, map, string_bytes, IfOk, IfErr, IsErr, vec_len};
ghost use Rattle.std.specs.IoError.{error_kind};
ghost use Rattle.std.specs.Process.{exit_status};
ghost use Rattle.std.specs.Vec.Iter.{into_iter_items};
ghost use Rattle.dh_command.specs.Responses.{without_memory};
ghost use Rattle.dh_command.specs.Statuses.{code_of};
ghost use Rattle.dh_command.specs.Words.{Word, command_of};
ghost use Rattle.dh_top.specs.Outside.{Outside, outside, desks_for, UsesFirst};
ghost use Rattle.dh_streams.specs.Deliveries.{Delivers};
ghost use Rattle.dh_streams.specs.Streams.{Input, reading, output};
ghost use Rattle.dh_top.specs.Runs.{Runs};
ghost use Rattle.dh_top.specs.Ends.{Ends, EndsWithoutMemory, words_told};

use crate::runs::run_dhall;
use dh_command::Status;
use dh_ports::{Desk, Feed, Gate, Sink, World};
use dh_streams::deliver;
use std::alloc::{AllocError, Global};
use std::env::Args;
use std::io;
use std::io::ErrorKind;
use std::process::ExitCode;
use std::sync::Wait;
use std::thread::Threads;

/// The words after the program's name, and none where one of them is not UTF-8.
fn told_words(alloc: Global, args: io::Result<Args>) -> Result<Vec<String>, AllocError>
    ensures words { IfOk result (λ words. map string_bytes words.items ≡ words_told string_bytes args) }
    ensures lacks { IfErr args (λ e. error_kind e ≡ ErrorKind.OutOfMemory → IsErr result) }
{
    match args {
        Ok(args) => words_of(alloc, args),
        Err(error) if error.kind() == ErrorKind::OutOfMemory => Err(AllocError),
        Err(_) => Ok(Vec::new(alloc)),
    }
}

/// The words after the program's name.
fn words_of(alloc: Global, args: Args) -> Result<Vec<String>, AllocError>
    ensures { IfOk result (λ words. words.items ≡ drop 1 (into_iter_items args)) }
{
    args.skip(1).collect(alloc)
}

/// Tells that memory is wanting: a run of whatever words that lacks it before anything is read or kept.
pub fn lack_memory<O: Sink, E: Sink>(out: &mut O, err: &mut E) -> Status
    ensures told { Delivers without_memory
        (output (O.written out.old) (O.written out.new) (O.faults out.old) (O.faults out.new))
        (output (E.written err.old) (E.written err.new) (E.faults err.old) (E.faults err.new)) result }
    ensures runs { (words : List Word) (input : Input) (o : Outside) → o.filed_after ≡ o.filed_before → Runs words input o
        (output (O.written out.old) (O.written out.new) (O.faults out.old) (O.faults out.new))
        (output (E.written err.old) (E.written err.new) (E.faults err.old) (E.faults err.new)) result }
{
    deliver(&[], b"out of memory\n", Status::Memory, out, err)
}

/// The exit status of the process.
pub fn exit_code(status: Status) -> ExitCode
    ensures { exit_status result ≡ code_of status }
{
    ExitCode::from(status.code())
}

/// Runs the command on these words, unless memory was wanting for them.
fn run_words<
    R: Threads + Wait + Sync,
    W: World + Send + Sync,
    D: Desk<W> + Send + Drop,
    I: Feed,
    O: Sink,
    E: Sink,
    G: Gate + Sync,
>(
    rt: &R,
    alloc: Global,
    words: Result<Vec<String>, AllocError>,
    desks: &mut Vec<D>,
    gate: &G,
    input: &mut I,
    out: &mut O,
    err: &mut E,
) -> Status
    requires { 0 < vec_len desks.old }
    ensures count { vec_len desks.new ≡ vec_len desks.old }
    ensures desks { (told : List Word) → IfOk words (λ ws. map string_bytes ws.items ≡ told) → UsesFirst (λ d. D.filed d) (desks_for (command_of told) (vec_len desks.old)) desks.old.items desks.new.items }
    ensures runs { (told : List Word) → IfOk words (λ ws. map string_bytes ws.items ≡ told) → Runs told
        (reading (I.left input.old) (I.left input.new) (I.faults input.old) (I.faults input.new))
        (outside W.told W.shelved (λ d. D.asked d) (λ d. D.faults d) (λ d. D.filed d) desks.old.items desks.new.items)
        (output (O.written out.old) (O.written out.new) (O.faults out.old) (O.faults out.new))
        (output (E.written err.old) (E.written err.new) (E.faults err.old) (E.faults err.new)) result }
    ensures lacks { IsErr words → Delivers without_memory
        (output (O.written out.old) (O.written out.new) (O.faults out.old) (O.faults out.new))
        (output (E.written err.old) (E.written err.new) (E.faults err.old) (E.faults err.new)) result }
{
    match words {
        Ok(words) => run_dhall::<_, W, _, _, _, _, _>(
            rt,
            alloc,
            words.as_slice(),
            desks,
            input,
            out,
            err,
            gate,
        ),
        Err(_) => lack_memory(out, err),
    }
}

/// Runs the program: hands its words, without its name, its desks and its streams to the command as they are, and ends with
/// the command's status. Words of which one is not UTF-8 are no command line, and are answered as none.
pub fn run_program<
    R: Threads + Wait + Sync,
    W: World + Send + Sync,
    D: Desk<W> + Send + Drop,
    I: Feed,
    O: Sink,
    E: Sink,
    G: Gate + Sync,
>(
    rt: &R,
    alloc: Global,
    args: io::Result<Args>,
    desks: &mut Vec<D>,
    gate: &G,
    input: &mut I,
    out: &mut O,
    err: &mut E,
) -> ExitCode
    requires { 0 < vec_len desks.old }
    ensures count { vec_len desks.new ≡ vec_len desks.old }
    ensures desks { UsesFirst (λ d. D.filed d) (desks_for (command_of (words_told string_bytes args)) (vec_len desks.old)) desks.old.items desks.new.items }
    ensures ends { Ends (words_told string_bytes args)
        (reading (I.left input.old) (I.left input.new) (I.faults input.old) (I.faults input.new))
        (outside W.told W.shelved (λ d. D.asked d) (λ d. D.faults d) (λ d. D.filed d) desks.old.items desks.new.items)
        (output (O.written out.old) (O.written out.new) (O.faults out.old) (O.faults out.new))
        (output (E.written err.old) (E.written err.new) (E.faults err.old) (E.faults err.new)) (exit_status result) }

    // Where memory was wanting for the words, that is what is told.
    ensures lacks { IfErr args (λ e. error_kind e ≡ ErrorKind.OutOfMemory → EndsWithoutMemory
        (output (O.written out.old) (O.written out.new) (O.faults out.old) (O.faults out.new))
        (output (E.written err.old) (E.written err.new) (E.faults err.old) (E.faults err.new)) (exit_status result)) }
{
    let words = told_words(alloc, args);
    let status = run_words::<_, W, _, _, _, _, _>(rt, alloc, words, desks, gate, input, out, err);
    exit_code(status)
}
