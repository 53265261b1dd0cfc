//! The command `gen`: how many imports a list of generated texts takes, how many fetches, and the digest of the list.

ghost use Rattle.std.specs.Prelude.{◌≡◌, ◌++◌, ◌<◌, ℕ, IsOk, Ok, IfOk, count_by, length, map, string_bytes, vec_len};
ghost use Rattle.dh_command.specs.Answer.{ResolvedAnswer};
ghost use Rattle.dh_command.specs.Generating.{count_lines};
ghost use Rattle.dh_command.specs.Responses.{Response, answer as answer_of};
ghost use Rattle.dh_command.specs.declared.verbs.Verb.TheVariants as verbs;
ghost use Rattle.dh_gen.specs.Generated.{list_text as text_of_list};
ghost use Rattle.dh_gen.specs.NumberWords.{operand_number};
ghost use Rattle.dh_imports.specs.Replay.{distinct, keys};
ghost use Rattle.dh_shared.specs.Counting.{is_fetch_claim};
ghost use Rattle.dh_syntax.specs.Expressions.Bridge.{term};
ghost use Rattle.dh_syntax.specs.Expressions.Spellable.{IsSpellable};
ghost use Rattle.dh_syntax.specs.Text.Spelling.{ParsesTo};
ghost use Rattle.dh_table.specs.States.{record_of, state_of};
ghost use Rattle.dh_top.specs.Generating.{IsCounted, IsGenerated};
ghost use Rattle.dh_top.specs.Replies.{written, IsClosed};

use crate::faults::why_reply;
use crate::replies::{Reply, misspelling};
use crate::resolving::ended_reply;
use dh_command::{Command, Status, Verb};
use dh_gen::{Gen, GenDesk, list_text, made, number_named};
use dh_imports::Why;
use dh_parse::parse;
use dh_ports::Gate;
use dh_record::Kind;
use dh_session::{SessionFault, resolve_all};
use dh_shelf::Shelf;
use dh_syntax::{Expr, ParseFault};
use dh_table::{Ended, Step, Table};
use std::alloc::{AllocError, Global};
use std::sync::Wait;
use std::thread::Threads;

/// As many desks in the world of the generated texts as `count` says.
fn desks_made(alloc: Global, count: u32) -> Result<Vec<GenDesk>, AllocError>
    ensures { IfOk result (λ desks. vec_len desks ≡ count) }
{
    let mut desks = Vec::new(alloc);
    for _ in 0..count {
        desks.push(made())?;
    }
    Ok(desks)
}

/// Whether a step claims a fetch.
fn claims_fetch(step: &Step) -> bool
    ensures { result ≡ is_fetch_claim step.now }
{
    match step {
        Step::Claim { kind, .. } => match kind {
            Kind::Fetch => true,
            Kind::Look | Kind::Finish => false,
        },
        Step::Release { .. } | Step::Fetched { .. } | Step::Looked { .. } => false,
        Step::Finished { .. } | Step::Late { .. } | Step::Cycled { .. } => false,
    }
}

/// How many steps claim a fetch.
fn fetch_count(history: &[Step]) -> usize
    ensures { result ≡ count_by is_fetch_claim history.now }
{
    history.iter().filter(|step| claims_fetch(step)).count()
}

/// The reply that tells how many keys and fetches there were, and then the line of a digest.
fn counted_reply(
    alloc: Global,
    imports: usize,
    asked: usize,
    digest: &[u8],
) -> Result<Reply, AllocError>
    ensures { IfOk result (λ w. written w ≡ answer_of (count_lines imports asked ++ digest.now)) }
{
    let text = format!(in alloc; "imports {imports}\nasked {asked}\n")?;
    let mut out = text.into_bytes();
    out.extend_from_slice(digest)?;
    Ok(Reply::answer(alloc, out))
}

/// The reply to a closed table of the list: the counts and the digest, or the fault of the list.
fn list_reply(
    alloc: Global,
    text: &[u8],
    table: &Table<Gen>,
    ended: &Ended,
) -> Result<Reply, AllocError>
    requires spelled { ParsesTo text.now (Ok (state_of table.now).root) }
    requires spellable { IsSpellable (state_of table.now).root }
    requires closed { IsClosed table.now ended.now }
    ensures { IfOk result (λ w. (hash : Response) × ResolvedAnswer verbs.Hash text.now (state_of table.now).root (record_of table.now) hash
        × IsCounted (length (distinct (keys (state_of table.now)))) (count_by is_fetch_claim table.now.history) hash (written w)) }
{
    let reply = ended_reply(alloc, Verb::Hash, text, table, ended)?;
    match reply.status {
        Status::Ok => {
            let asked = fetch_count(table.history());
            counted_reply(alloc, table.key_count(), asked, reply.out.as_slice())
        }
        _ => Ok(reply),
    }
}

/// The reply to the list that spells this expression, by so many workers, each with a desk of its own.
fn spelled_list<R: Threads + Wait + Sync, G: Gate + Sync>(
    rt: &R,
    alloc: Global,
    workers: u32,
    text: &[u8],
    e: Expr,
    gate: &G,
) -> Result<Reply, AllocError>
    requires some { 0 < workers }
    requires spelled { ParsesTo text.now (Ok (term e)) }
    requires spellable { IsSpellable (term e) }
    ensures { IfOk result (λ w. (n : ℕ) → text.now ≡ text_of_list n → IsGenerated n (written w)) }
{
    let mut desks = desks_made(alloc, workers)?;
    let shelf = Shelf::new(alloc)?;
    match resolve_all::<R, Gen, GenDesk, G>(rt, alloc, &mut desks, workers, &shelf, e, gate) {
        Ok(answered) => {
            answered.table.by_world();
            answered.table.by_history();
            list_reply(alloc, text, &answered.table, &answered.ended)
        }
        Err(SessionFault::TooMany) => why_reply(alloc, None, &Why::TooMany),
        Err(SessionFault::Memory) => Err(AllocError),
    }
}

/// The reply to the text of the list.
fn listing<R: Threads + Wait + Sync, G: Gate + Sync>(
    rt: &R,
    alloc: Global,
    workers: u32,
    text: &[u8],
    gate: &G,
) -> Result<Reply, AllocError>
    requires some { 0 < workers }
    ensures { IfOk result (λ w. (n : ℕ) → text.now ≡ text_of_list n → IsGenerated n (written w)) }
{
    match parse(alloc, text) {
        Ok(e) => spelled_list::<R, G>(rt, alloc, workers, text, e, gate),
        Err(fault) => match fault {
            ParseFault::Memory => Err(AllocError),
            _ => misspelling(alloc, fault),
        },
    }
}

/// The reply of `gen` to the number that its operand names. It has desks of its own, one for each worker that the words ask for.
pub(crate) fn generating<R: Threads + Wait + Sync, G: Gate + Sync>(
    rt: &R,
    alloc: Global,
    command: Command,
    operands: &[String],
    gate: &G,
) -> Result<Reply, AllocError>
    requires named { IsOk (operand_number 1 (map string_bytes operands.now)) }
    ensures { IfOk result (λ w. (n : ℕ) → operand_number 1 (map string_bytes operands.now) ≡ Ok n → IsGenerated n (written w)) }
{
    let text = list_text(alloc, number_named(operands))?;
    listing::<R, G>(rt, alloc, command.workers.max(1), text.as_bytes(), gate)
}
