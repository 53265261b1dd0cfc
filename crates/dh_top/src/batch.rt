//! `batch`: a line for each file, with its digest or why it has none.

ghost use Rattle.std.specs.Prelude.{◌≡◌, ◌≤◌, ◌<◌, ◌++◌, IfOk, OnOk, OnErr, List, length, map, string_bytes, vec_len};
ghost use Rattle.dh_command.specs.Answer.{batched, file_line, unless_ok};
ghost use Rattle.dh_command.specs.Words.{operand_words};
ghost use Rattle.dh_command.specs.declared.verbs.Verb.TheVariants as verbs;
ghost use Rattle.dh_top.specs.FileReplies.{AllSmall, IsSmall, all_pairs, pairs_of, response_of};
ghost use Rattle.dh_top.specs.Outside.{outside, desks_of, AtFirst, FilesAll, FilesPart, FilesSome, Pair, UsesFirst};
ghost use Rattle.dh_top.specs.Replies.{written, Answers};

use crate::files::{FileReply, Hashing};
use crate::keeping::keep_all;
use crate::replies::Reply;
use crate::resolving::workers_for;
use dh_batch::serve_files;
use dh_command::{Command, Status};
use dh_ports::{Desk, Gate, World};
use dh_shelf::Shelf;
use std::alloc::{AllocError, Global};
use std::sync::Wait;
use std::thread::Threads;

/// Writes the line of a file.
fn write_line(out: &mut Vec<u8>, word: &str, reply: &FileReply) -> Result<(), AllocError>
    ensures { OnOk result (out.new.items ≡ out.old.items ++ file_line word.now (response_of reply.now)) }
{
    out.extend_from_slice(word.as_bytes())?;
    out.extend_from_slice(b": ")?;
    match &reply.reply {
        Some(reply) => {
            out.extend_from_slice(&reply.out)?;
            out.extend_from_slice(&reply.err)?;
        }
        None => out.extend_from_slice(b"out of memory\n")?,
    }
    Ok(())
}

/// The status of a reply to a file.
fn status_of(reply: &FileReply) -> Status
    ensures { result ≡ (response_of reply.now).status }
{
    match &reply.reply {
        Some(reply) => reply.status,
        None => Status::Memory,
    }
}

/// The first of two statuses that is not `Ok`.
fn first_fault(before: Status, after: Status) -> Status
    ensures { result ≡ unless_ok before after }
{
    match before {
        Status::Ok => after,
        _ => before,
    }
}

/// The lines of all files, in their order, with the status of the first one that has no digest.
fn lines(alloc: Global, words: &[String], replies: &[FileReply]) -> Result<Reply, AllocError>
    requires { length replies.now ≡ length words.now }
    ensures { IfOk result (λ r. written r ≡ batched (map string_bytes words.now) (map response_of replies.now)) }
{
    let mut out = Vec::new(alloc);
    let mut status = Status::Ok;
    for i in 0..replies.len() {
        write_line(&mut out, words[i].as_str(), &replies[i])?;
        status = first_fault(status, status_of(&replies[i]));
    }
    Ok(Reply {
        out,
        err: Vec::new(alloc),
        status,
    })
}

/// Keeps the entries of all files at a desk, in the order of the files, until memory is wanting.
fn keep_files<W: World, D: Desk<W>>(desk: &mut D, replies: &[FileReply]) -> Result<(), AllocError>
    requires { AllSmall replies.now }
    ensures kept { OnOk result (FilesAll (D.faults desk.old) (D.faults desk.new) (D.filed desk.old) (D.filed desk.new) (all_pairs replies.now)) }
    ensures part { OnErr result ((kept : List Pair) × FilesSome (D.filed desk.old) (D.filed desk.new) (all_pairs replies.now) kept) }
    ensures counted { D.faults desk.old ≤ D.faults desk.new }
    ensures asked { D.asked desk.new ≡ D.asked desk.old }
{
    let mut left = replies;
    while let Some((reply, rest)) = left.split_first() {
        keep_all::<W, D>(desk, reply.keeps.as_slice())?;
        left = rest;
    }
    Ok(())
}

/// Keeps the entries of all files at the first desk, in the order of the files, until memory is wanting.
fn keep_files_at_first<W: World, D: Desk<W>>(
    desks: &mut [D],
    replies: &[FileReply],
) -> Result<(), AllocError>
    requires some { 0 < length desks.old }
    requires small { AllSmall replies.now }
    ensures kept { OnOk result (AtFirst (λ d e. (D.faults d ≤ D.faults e) × FilesAll (D.faults d) (D.faults e) (D.filed d) (D.filed e) (all_pairs replies.now)) desks.old desks.new) }
    ensures part { OnErr result (AtFirst (λ d e. (D.faults d ≤ D.faults e) × ((kept : List Pair) × FilesSome (D.filed d) (D.filed e) (all_pairs replies.now) kept)) desks.old desks.new) }
    ensures asked { map (λ d. D.asked d) desks.new ≡ map (λ d. D.asked d) desks.old }
{
    keep_files::<W, D>(&mut desks[0], replies)
}

/// The reply to files, after the entries of all of them are kept at the first desk.
fn served_reply<W: World, D: Desk<W>>(
    alloc: Global,
    words: &[String],
    replies: &[FileReply],
    desks: &mut [D],
) -> Result<Reply, AllocError>
    requires some { 0 < length desks.old }
    requires count { length replies.now ≡ length words.now }
    requires small { AllSmall replies.now }
    ensures kept { OnOk result (AtFirst (λ d e. (D.faults d ≤ D.faults e) × FilesAll (D.faults d) (D.faults e) (D.filed d) (D.filed e) (all_pairs replies.now)) desks.old desks.new) }
    ensures part { OnErr result (AtFirst (λ d e. (D.faults d ≤ D.faults e) × ((kept : List Pair) × FilesSome (D.filed d) (D.filed e) (all_pairs replies.now) kept)) desks.old desks.new) }
    ensures asked { map (λ d. D.asked d) desks.new ≡ map (λ d. D.asked d) desks.old }
    ensures lines { IfOk result (λ r. written r ≡ batched (map string_bytes words.now) (map response_of replies.now)) }
{
    keep_files_at_first::<W, D>(desks, replies)?;
    lines(alloc, words, replies)
}

/// The reply of `batch` to files: desk i of those that are used serves the files i, i + n and so on, each in a session of its own, and
/// all over one shelf.
pub(crate) fn batching<
    R: Threads + Wait + Sync,
    W: World + Send + Sync,
    D: Desk<W> + Send + Drop,
    G: Gate + Sync,
>(
    rt: &R,
    alloc: Global,
    command: Command,
    operands: &[String],
    input: &[u8],
    desks: &mut Vec<D>,
    gate: &G,
) -> Result<Reply, AllocError>
    requires some { 0 < vec_len desks.old }
    requires batch { command.verb ≡ verbs.Batch }
    ensures count { vec_len desks.new ≡ vec_len desks.old }
    ensures desks { UsesFirst (λ d. D.filed d) (desks_of command (vec_len desks.old)) desks.old.items desks.new.items }
    ensures answers { IfOk result (λ w. Answers command.verb (map string_bytes operands.now) input.now (outside W.told W.shelved (λ d. D.asked d) (λ d. D.faults d) (λ d. D.filed d) desks.old.items desks.new.items) (written w)) }
    ensures lacks { OnErr result (FilesPart command.verb (map string_bytes operands.now) input.now (outside W.told W.shelved (λ d. D.asked d) (λ d. D.faults d) (λ d. D.filed d) desks.old.items desks.new.items)) }
{
    let workers = workers_for(command.workers, desks.len());
    let shelf = Shelf::new(alloc)?;
    let session = Hashing { gate };
    let replies = serve_files(rt, alloc, &session, desks, workers, &shelf, operands)?;
    served_reply::<W, D>(alloc, operands, replies.as_slice(), desks.as_mut_slice())
}
