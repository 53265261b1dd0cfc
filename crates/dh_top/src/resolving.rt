//! The commands that resolve imports: from a text to the expression with a value for each import.

ghost use Rattle.std.specs.Prelude.{◌≡◌, ◌≤◌, ◌<◌, ◌^◌, IsTrue, IfOk, OnOk, OnErr, Ok, List, length, map, max, min, vec_len};
ghost use Rattle.dh_command.specs.Answer.{ResolvedAnswer, ValuedAnswer};
ghost use Rattle.dh_command.specs.Words.{Word, resolves as resolves_imports};
ghost use Rattle.dh_syntax.specs.Expressions.Arity.{IsWellFormed};
ghost use Rattle.dh_syntax.specs.Expressions.Bridge.{term};
ghost use Rattle.dh_syntax.specs.Expressions.Nesting.{nesting};
ghost use Rattle.dh_syntax.specs.Expressions.Spellable.{IsSpellable};
ghost use Rattle.dh_imports.specs.Machine.{outcome_of};
ghost use Rattle.dh_imports.specs.Readings.{root_reading};
ghost use Rattle.dh_imports.specs.Replay.{root_end};
ghost use Rattle.dh_syntax.specs.Names.Indices.{IndicesBelow};
ghost use Rattle.dh_syntax.specs.Text.Spelling.{ParsesTo};
ghost use Rattle.dh_table.specs.Kept.{IsKeeping};
ghost use Rattle.dh_record.specs.Kept.{pair_of};
ghost use Rattle.dh_table.specs.States.{record_of, state_of};
ghost use Rattle.dh_top.specs.Outside.{outside, desks_of, AtFirst, FilesAll, FilesPart, FilesSome, Pair, UsesFirst};
ghost use Rattle.dh_top.specs.Replies.{written, Answers, IsClosed};

use crate::blames::blame_reply;
use crate::faults::why_reply;
use crate::freezing::freezing;
use crate::keeping::keep_at_first;
use crate::replies::{Reply, misspelling};
use crate::typing::{printed_line, typing};
use dh_command::{Command, Verb};
use dh_imports::Why;
use dh_parse::parse;
use dh_ports::{Desk, Gate, World};
use dh_session::{Answered, SessionFault, resolve_all};
use dh_shelf::Shelf;
use dh_syntax::{Expr, ParseFault};
use dh_table::{Ended, Table};
use std::alloc::{AllocError, Global};
use std::sync::Wait;
use std::thread::Threads;

/// The reply to the root with its values.
fn ready_reply<W: World>(
    alloc: Global,
    verb: Verb,
    text: &[u8],
    table: &Table<W>,
    e: &Expr,
) -> Result<Reply, AllocError>
    requires resolves { IsTrue (resolves_imports verb) }
    requires spelled { ParsesTo text.now (Ok (state_of table.now).root) }
    requires formed { IsWellFormed (term e.now) }
    requires shallow { nesting (term e.now) < 2 ^ 32 }
    requires indices { IndicesBelow (2 ^ 31) (term e.now) }
    ensures { IfOk result (λ w. ValuedAnswer verb (root_reading text.now (state_of table.now).root (outcome_of (state_of table.now))) (term e.now) (written w)) }
{
    match verb {
        Verb::Resolve => printed_line(alloc, e),
        Verb::Freeze => freezing(alloc, text, table),
        _ => typing(alloc, verb, text, table, e),
    }
}

/// The reply to a closed table whose root ended so.
pub(crate) fn ended_reply<W: World>(
    alloc: Global,
    verb: Verb,
    text: &[u8],
    table: &Table<W>,
    ended: &Ended,
) -> Result<Reply, AllocError>
    requires resolves { IsTrue (resolves_imports verb) }
    requires spelled { ParsesTo text.now (Ok (state_of table.now).root) }
    requires spellable { IsSpellable (state_of table.now).root }
    requires closed { IsClosed table.now ended.now }
    ensures { IfOk result (λ w. ResolvedAnswer verb text.now (state_of table.now).root (record_of table.now) (written w)) }
{
    table.by_history();
    match ended {
        Ended::Ready(e) => ready_reply(alloc, verb, text, table, e),
        Ended::Bad(blame) => blame_reply(alloc, table, blame),
    }
}

/// The reply to what a run found, after its entries for the cache are kept at the first desk.
fn answered_reply<W: World, D: Desk<W>>(
    alloc: Global,
    verb: Verb,
    text: &[u8],
    answered: &Answered<W>,
    desks: &mut [D],
) -> Result<Reply, AllocError>
    requires some { 0 < length desks.old }
    requires resolves { IsTrue (resolves_imports verb) }
    requires spelled { ParsesTo text.now (Ok (state_of answered.now.table).root) }
    requires spellable { IsSpellable (state_of answered.now.table).root }
    requires closed { IsClosed answered.now.table answered.now.ended }
    requires keeps { IsKeeping (state_of answered.now.table) (root_end (state_of answered.now.table)) (map pair_of answered.now.keeps) }
    ensures kept { OnOk result (AtFirst (λ d e. (D.faults d ≤ D.faults e) × FilesAll (D.faults d) (D.faults e) (D.filed d) (D.filed e) (map pair_of answered.now.keeps)) desks.old desks.new) }
    ensures part { OnErr result (AtFirst (λ d e. (D.faults d ≤ D.faults e) × ((kept : List Pair) × FilesSome (D.filed d) (D.filed e) (map pair_of answered.now.keeps) kept)) desks.old desks.new) }
    ensures asked { map (λ d. D.asked d) desks.new ≡ map (λ d. D.asked d) desks.old }
    ensures does { IfOk result (λ w. ResolvedAnswer verb text.now (state_of answered.now.table).root (record_of answered.now.table) (written w)) }
{
    keep_at_first::<W, D>(desks, answered.keeps.as_slice())?;
    ended_reply(alloc, verb, text, &answered.table, &answered.ended)
}

/// How many workers a run has that is asked for so many, with so many desks: at least one, and at most one for each desk.
pub(crate) fn workers_for(wanted: u32, desks: usize) -> u32
    requires { 0 < desks }
    ensures { result ≡ max 1 (min wanted desks) }
{
    if wanted == 0 {
        1
    } else if desks < wanted as usize {
        desks as u32
    } else {
        wanted
    }
}

/// The reply to a text that spells this expression.
fn spelled_reply<
    R: Threads + Wait + Sync,
    W: World + Send + Sync,
    D: Desk<W> + Send + Drop,
    G: Gate + Sync,
>(
    rt: &R,
    alloc: Global,
    command: Command,
    text: &[u8],
    e: Expr,
    desks: &mut Vec<D>,
    gate: &G,
) -> Result<Reply, AllocError>
    requires some { 0 < vec_len desks.old }
    requires resolves { IsTrue (resolves_imports command.verb) }
    requires spelled { ParsesTo text.now (Ok (term e)) }
    requires spellable { IsSpellable (term e) }
    ensures count { vec_len desks.new ≡ vec_len desks.old }
    ensures desks { UsesFirst (λ d. D.filed d) (desks_of command (vec_len desks.old)) desks.old.items desks.new.items }
    ensures answers { IfOk result (λ w. (ops : List Word) → Answers command.verb ops text.now (outside W.told W.shelved (λ d. D.asked d) (λ d. D.faults d) (λ d. D.filed d) desks.old.items desks.new.items) (written w)) }
    ensures lacks { OnErr result ((ops : List Word) → FilesPart command.verb ops text.now (outside W.told W.shelved (λ d. D.asked d) (λ d. D.faults d) (λ d. D.filed d) desks.old.items desks.new.items)) }
{
    let workers = workers_for(command.workers, desks.len());
    let shelf = Shelf::new(alloc)?;
    match resolve_all::<R, W, D, G>(rt, alloc, desks, workers, &shelf, e, gate) {
        Ok(answered) => {
            answered.table.by_world();
            answered.table.by_history();
            answered_reply::<W, D>(alloc, command.verb, text, &answered, desks.as_mut_slice())
        }
        Err(SessionFault::TooMany) => why_reply(alloc, None, &Why::TooMany),
        Err(SessionFault::Memory) => Err(AllocError),
    }
}

/// The reply of a command that resolves imports to a text.
pub(crate) fn resolving<
    R: Threads + Wait + Sync,
    W: World + Send + Sync,
    D: Desk<W> + Send + Drop,
    G: Gate + Sync,
>(
    rt: &R,
    alloc: Global,
    command: Command,
    text: &[u8],
    desks: &mut Vec<D>,
    gate: &G,
) -> Result<Reply, AllocError>
    requires some { 0 < vec_len desks.old }
    requires resolves { IsTrue (resolves_imports command.verb) }
    ensures count { vec_len desks.new ≡ vec_len desks.old }
    ensures desks { UsesFirst (λ d. D.filed d) (desks_of command (vec_len desks.old)) desks.old.items desks.new.items }
    ensures answers { IfOk result (λ w. (ops : List Word) → Answers command.verb ops text.now (outside W.told W.shelved (λ d. D.asked d) (λ d. D.faults d) (λ d. D.filed d) desks.old.items desks.new.items) (written w)) }
    ensures lacks { OnErr result ((ops : List Word) → FilesPart command.verb ops text.now (outside W.told W.shelved (λ d. D.asked d) (λ d. D.faults d) (λ d. D.filed d) desks.old.items desks.new.items)) }
{
    match parse(alloc, text) {
        Ok(e) => spelled_reply::<R, W, D, G>(rt, alloc, command, text, e, desks, gate),
        Err(fault) => match fault {
            ParseFault::Memory => Err(AllocError),
            _ => misspelling(alloc, fault),
        },
    }
}
