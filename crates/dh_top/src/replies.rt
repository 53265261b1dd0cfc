//! What a run replies to its words and its input.

ghost use Rattle.std.specs.Prelude.{◌≡◌, ◌<◌, false, [], IfOk, OnErr, map, string_bytes, vec_len};
ghost use Rattle.dh_command.specs.Responses.{misused, unread, answer as answer_of, misspelt};
ghost use Rattle.dh_command.specs.Words.{AreFit, command_of, takes_number};
ghost use Rattle.dh_top.specs.Outside.{outside, desks_for, desks_of, FilesPart, UsesFirst};
ghost use Rattle.dh_top.specs.Replies.{written, Answers, IsMade, Lacks, Performs};
ghost use Rattle.dh_streams.specs.Streams.{reading};
ghost use Rattle.dh_top.specs.Runs.{LacksMemory};

use crate::batch::batching;
use crate::decoding::decoding;
use crate::encoding::encoding;
use crate::generating::generating;
use crate::resolving::resolving;
use crate::steps::stepping;
use crate::telling::{explain, help, version};
use crate::words::{operands_of, read_words};
use dh_command::{Command, Status, Verb};
use dh_ports::{Desk, Feed, Gate, World};
use dh_streams::{InputFault, read_input};
use dh_syntax::ParseFault;
use std::alloc::{AllocError, Global};
use std::sync::Wait;
use std::thread::Threads;

/// What is written to the two outputs, and the status.
#[derive(Debug, Drop)]
pub(crate) struct Reply {
    pub out: Vec<u8>,
    pub err: Vec<u8>,
    pub status: Status,
}

impl Reply {
    /// The reply that has these bytes for standard output.
    pub(crate) fn answer(alloc: Global, out: Vec<u8>) -> Reply
        ensures { written result ≡ answer_of out.items }
    {
        Reply {
            out,
            err: Vec::new(alloc),
            status: Status::Ok,
        }
    }

    /// The reply that says in one line why there is no answer.
    pub(crate) fn refusal(alloc: Global, text: String, status: Status) -> Reply
        ensures { written result ≡ record { out = []; err = string_bytes text; status = status } }
    {
        Reply {
            out: Vec::new(alloc),
            err: text.into_bytes(),
            status,
        }
    }
}

/// The reply to words that are no command line: the number of the word at fault.
fn misuse(alloc: Global, k: u32) -> Result<Reply, AllocError>
    ensures { IfOk result (λ r. written r ≡ misused k) }
{
    let text = format!(in alloc; "usage: word {k}\n")?;
    Ok(Reply::refusal(alloc, text, Status::Usage))
}

/// The reply to a text that spells no expression.
pub(crate) fn misspelling(alloc: Global, fault: ParseFault) -> Result<Reply, AllocError>
    ensures { IfOk result (λ r. written r ≡ misspelt fault) }
{
    let text = format!(in alloc; "{fault}\n")?;
    Ok(Reply::refusal(alloc, text, Status::Text))
}

/// The reply to an input that cannot be read.
fn unreadable(alloc: Global) -> Result<Reply, AllocError>
    ensures { IfOk result (λ r. written r ≡ unread) }
{
    let text = String::from_str(alloc, "read failed\n")?;
    Ok(Reply::refusal(alloc, text, Status::Read))
}

/// The reply of a command to what was read of its input.
fn answer<
    R: Threads + Wait + Sync,
    W: World + Send + Sync,
    D: Desk<W> + Send + Drop,
    G: Gate + Sync,
>(
    rt: &R,
    alloc: Global,
    command: Command,
    operands: &[String],
    input: &[u8],
    desks: &mut Vec<D>,
    gate: &G,
) -> Result<Reply, AllocError>
    requires some { 0 < vec_len desks.old }
    requires fit { AreFit command.verb (map string_bytes operands.now) }
    requires no_number { takes_number command.verb ≡ false }
    ensures count { vec_len desks.new ≡ vec_len desks.old }
    ensures desks { UsesFirst (λ d. D.filed d) (desks_of command (vec_len desks.old)) desks.old.items desks.new.items }
    ensures answers { IfOk result (λ w. Answers command.verb (map string_bytes operands.now) input.now (outside W.told W.shelved (λ d. D.asked d) (λ d. D.faults d) (λ d. D.filed d) desks.old.items desks.new.items) (written w)) }
    ensures lacks { OnErr result (FilesPart command.verb (map string_bytes operands.now) input.now (outside W.told W.shelved (λ d. D.asked d) (λ d. D.faults d) (λ d. D.filed d) desks.old.items desks.new.items)) }
{
    match command.verb {
        Verb::Encode => encoding(alloc, input),
        Verb::Decode => decoding(alloc, input),
        Verb::Resolve | Verb::Type | Verb::Normalize | Verb::Hash | Verb::ToJson | Verb::Freeze => {
            resolving::<R, W, D, G>(rt, alloc, command, input, desks, gate)
        }
        Verb::Batch => { batching::<R, W, D, G>(rt, alloc, command, operands, input, desks, gate) }
        Verb::Steps => stepping(alloc, operands, input),
        Verb::Gen => unreachable!(),
        Verb::Explain => explain(alloc, operands),
        Verb::Help => help(alloc),
        Verb::Version => version(alloc),
    }
}

/// Reads the input of a command that reads one, and replies to it.
fn perform<
    R: Threads + Wait + Sync,
    W: World + Send + Sync,
    D: Desk<W> + Send + Drop,
    I: Feed,
    G: Gate + Sync,
>(
    rt: &R,
    alloc: Global,
    command: Command,
    operands: &[String],
    desks: &mut Vec<D>,
    input: &mut I,
    gate: &G,
) -> Result<Reply, AllocError>
    requires some { 0 < vec_len desks.old }
    requires fit { AreFit command.verb (map string_bytes operands.now) }
    ensures count { vec_len desks.new ≡ vec_len desks.old }
    ensures desks { UsesFirst (λ d. D.filed d) (desks_of command (vec_len desks.old)) desks.old.items desks.new.items }
    ensures performs { IfOk result (λ w. Performs command (map string_bytes operands.now)
        (reading (I.left input.old) (I.left input.new) (I.faults input.old) (I.faults input.new))
        (outside W.told W.shelved (λ d. D.asked d) (λ d. D.faults d) (λ d. D.filed d) desks.old.items desks.new.items) (written w)) }
    ensures lacks { OnErr result (Lacks command (map string_bytes operands.now)
        (reading (I.left input.old) (I.left input.new) (I.faults input.old) (I.faults input.new))
        (outside W.told W.shelved (λ d. D.asked d) (λ d. D.faults d) (λ d. D.filed d) desks.old.items desks.new.items)) }
{
    if command.verb.takes_number() {
        return generating::<R, G>(rt, alloc, command, operands, gate);
    }
    if !command.verb.reads() {
        return answer::<R, W, D, G>(rt, alloc, command, operands, &[], desks, gate);
    }
    match read_input(alloc, input) {
        Ok(bytes) => { answer::<R, W, D, G>(rt, alloc, command, operands, &bytes, desks, gate) }
        Err(InputFault::Failed) => unreadable(alloc),
        Err(InputFault::Memory) => Err(AllocError),
    }
}

/// The reply to the words of the command line, with the input and the desks that they ask for.
pub(crate) fn reply_to<
    R: Threads + Wait + Sync,
    W: World + Send + Sync,
    D: Desk<W> + Send + Drop,
    I: Feed,
    G: Gate + Sync,
>(
    rt: &R,
    alloc: Global,
    words: &[String],
    desks: &mut Vec<D>,
    input: &mut I,
    gate: &G,
) -> Result<Reply, AllocError>
    requires some { 0 < vec_len desks.old }
    ensures count { vec_len desks.new ≡ vec_len desks.old }
    ensures desks { UsesFirst (λ d. D.filed d) (desks_for (command_of (map string_bytes words.now)) (vec_len desks.old)) desks.old.items desks.new.items }
    ensures made { IfOk result (λ w. IsMade (map string_bytes words.now)
        (reading (I.left input.old) (I.left input.new) (I.faults input.old) (I.faults input.new))
        (outside W.told W.shelved (λ d. D.asked d) (λ d. D.faults d) (λ d. D.filed d) desks.old.items desks.new.items) (written w)) }
    ensures lacks { OnErr result (LacksMemory (map string_bytes words.now)
        (reading (I.left input.old) (I.left input.new) (I.faults input.old) (I.faults input.new))
        (outside W.told W.shelved (λ d. D.asked d) (λ d. D.faults d) (λ d. D.filed d) desks.old.items desks.new.items)) }
{
    match read_words(words) {
        Ok(command) => {
            let operands = operands_of(words);
            perform::<R, W, D, I, G>(rt, alloc, command, operands, desks, input, gate)
        }
        Err(k) => misuse(alloc, k),
    }
}
