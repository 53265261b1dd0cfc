//! The commands that infer a type: from an expression with its values to the printed type, the printed normal form, or the JSON text
//! or the digest of the normal form.

ghost use Rattle.std.specs.Prelude.{◌≡◌, ◌≢◌, ◌≤◌, ◌<◌, ◌+◌, ◌^◌, ℕ, List, [], IsTrue, IfOk, IfErr, Ok};
ghost use Rattle.dh_command.specs.Answer.{IsTyped, TypedAnswer, digest_line};
ghost use Rattle.dh_command.specs.Responses.{answer, fault as fault_of, line};
ghost use Rattle.dh_syntax.specs.FaultLines.{norm_fault_line};
ghost use Rattle.dh_command.specs.Words.{types};
ghost use Rattle.dh_syntax.specs.Expressions.Arity.{IsWellFormed};
ghost use Rattle.dh_syntax.specs.Expressions.Bridge.{term};
ghost use Rattle.dh_syntax.specs.Expressions.Nesting.{nesting};
ghost use Rattle.dh_syntax.specs.Expressions.Tree.{Term};
ghost use Rattle.dh_imports.specs.Machine.{outcome_of};
ghost use Rattle.dh_imports.specs.Readings.{Reading, root_reading};
ghost use Rattle.dh_syntax.specs.Limits.{most_nesting, whole_purse};
ghost use Rattle.dh_syntax.specs.Names.Indices.{IndicesBelow};
ghost use Rattle.dh_syntax.specs.Normalising.Named.{names};
ghost use Rattle.dh_syntax.specs.Normalising.Normal.{HasNormalForm, IsLicensed};
ghost use Rattle.dh_syntax.specs.Text.Printed.{text_of};
ghost use Rattle.dh_syntax.specs.Text.Spelling.{ParsesTo};
ghost use Rattle.dh_syntax.specs.Typing.NamedTyping.{IsIll};
ghost use Rattle.dh_syntax.specs.declared.faults.NormFault.TheVariants as limits;
ghost use Rattle.dh_command.specs.declared.statuses.Status.TheVariants as statuses;
ghost use Rattle.dh_command.specs.declared.verbs.Verb.TheVariants as verbs;
ghost use Rattle.dh_table.specs.States.{state_of};
ghost use Rattle.dh_top.specs.Replies.{written};

use crate::faults::ill_reply;
use crate::json::json_value_reply;
use crate::replies::Reply;
use dh_command::{Status, Verb};
use dh_digest::{digest, digest_text};
use dh_infer::infer;
use dh_norm::normal_form;
use dh_ports::World;
use dh_print::print;
use dh_syntax::{Digest, Expr, Ill, NormFault, Purse, TypeFault, WHOLE_PURSE};
use dh_table::Table;
use std::alloc::{AllocError, Global};

/// The reply that prints an expression on one line.
pub(crate) fn printed_line(alloc: Global, e: &Expr) -> Result<Reply, AllocError>
    requires { IsWellFormed (term e.now) }
    ensures { IfOk result (λ r. written r ≡ answer (line (text_of (term e.now)))) }
{
    let mut text = print(alloc, e)?.into_string();
    text.push_str("\n")?;
    Ok(Reply::answer(alloc, text.into_bytes()))
}

/// The reply that prints a digest on one line.
fn digest_reply(alloc: Global, digest: &Digest) -> Result<Reply, AllocError>
    ensures { IfOk result (λ r. written r ≡ answer (line (digest_line digest.now))) }
{
    let digits = digest_text(alloc, digest)?;
    let digits = digits.as_str();
    let text = format!(in alloc; "sha256:{digits}\n")?;
    Ok(Reply::answer(alloc, text.into_bytes()))
}

/// The reply that names a limit.
fn limit(alloc: Global, limit: NormFault) -> Result<Reply, AllocError>
    ensures { IfOk result (λ r. written r ≡ fault_of (norm_fault_line limit) statuses.Limit) }
{
    let text = format!(in alloc; "{limit}\n")?;
    Ok(Reply::refusal(alloc, text, Status::Limit))
}

/// The normal form of an expression, found with a whole purse.
fn whole_form(alloc: Global, e: &Expr) -> Result<Expr, NormFault>
    requires formed { IsWellFormed (term e.now) }
    requires shallow { nesting (term e.now) < 2 ^ 32 }
    requires indices { IndicesBelow (2 ^ 31) (term e.now) }
    ensures ok { IfOk result (λ f. HasNormalForm names (term e.now) (term f)) }
    ensures formed { IfOk result (λ f. IsWellFormed (term f)) }
    ensures shallow { IfOk result (λ f. nesting (term f) ≤ most_nesting) }
    ensures indices { IfOk result (λ f. IndicesBelow (2 ^ 31 + most_nesting) (term f)) }
    ensures err { IfErr result (λ l. IsLicensed names nesting whole_purse (term e.now) l) }
{
    let mut purse = Purse { left: WHOLE_PURSE };
    normal_form(alloc, e, &mut purse)
}

/// The reply that names the limit of a normal form, where there is memory for it.
fn limited(alloc: Global, fault: NormFault) -> Result<Reply, AllocError>
    ensures { IfOk result (λ r. (fault ≢ limits.Memory) × (written r ≡ fault_of (norm_fault_line fault) statuses.Limit)) }
{
    match fault {
        NormFault::Memory => Err(AllocError),
        _ => limit(alloc, fault),
    }
}

/// The reply of `normalize` to an expression that has a type.
fn normal_reply(alloc: Global, e: &Expr) -> Result<Reply, AllocError>
    requires formed { IsWellFormed (term e.now) }
    requires shallow { nesting (term e.now) < 2 ^ 32 }
    requires indices { IndicesBelow (2 ^ 31) (term e.now) }
    requires typed { (t : Term) × IsTyped (term e.now) t }
    ensures { IfOk result (λ r. (i : Reading) → TypedAnswer verbs.Normalize i (term e.now) (written r)) }
{
    match whole_form(alloc, e) {
        Ok(form) => printed_line(alloc, &form),
        Err(fault) => limited(alloc, fault),
    }
}

/// The reply of `hash` to an expression that has a type.
fn hash_reply(alloc: Global, e: &Expr) -> Result<Reply, AllocError>
    requires formed { IsWellFormed (term e.now) }
    requires shallow { nesting (term e.now) < 2 ^ 32 }
    requires indices { IndicesBelow (2 ^ 31) (term e.now) }
    requires typed { (t : Term) × IsTyped (term e.now) t }
    ensures { IfOk result (λ r. (i : Reading) → TypedAnswer verbs.Hash i (term e.now) (written r)) }
{
    match whole_form(alloc, e) {
        Ok(form) => digest_reply(alloc, &digest(alloc, &form)?),
        Err(fault) => limited(alloc, fault),
    }
}

/// The reply of `to-json` to an expression that has a type.
fn json_reply(alloc: Global, e: &Expr) -> Result<Reply, AllocError>
    requires formed { IsWellFormed (term e.now) }
    requires shallow { nesting (term e.now) < 2 ^ 32 }
    requires indices { IndicesBelow (2 ^ 31) (term e.now) }
    requires typed { (t : Term) × IsTyped (term e.now) t }
    ensures { IfOk result (λ r. (i : Reading) → TypedAnswer verbs.ToJson i (term e.now) (written r)) }
{
    match whole_form(alloc, e) {
        Ok(form) => json_value_reply(alloc, &form),
        Err(fault) => limited(alloc, fault),
    }
}

/// The reply to an expression of this type.
fn typed_reply(alloc: Global, verb: Verb, e: &Expr, typed: &Expr) -> Result<Reply, AllocError>
    requires types { IsTrue (types verb) }
    requires formed { IsWellFormed (term e.now) }
    requires shallow { nesting (term e.now) < 2 ^ 32 }
    requires indices { IndicesBelow (2 ^ 31) (term e.now) }
    requires typed { IsTyped (term e.now) (term typed.now) }
    requires type_formed { IsWellFormed (term typed.now) }
    requires type_shallow { nesting (term typed.now) ≤ most_nesting }
    ensures { IfOk result (λ r. (i : Reading) → TypedAnswer verb i (term e.now) (written r)) }
{
    match verb {
        Verb::Type => printed_line(alloc, typed),
        Verb::Normalize => normal_reply(alloc, e),
        Verb::Hash => hash_reply(alloc, e),
        Verb::ToJson => json_reply(alloc, e),
        Verb::Encode | Verb::Decode | Verb::Resolve | Verb::Freeze | Verb::Batch => unreachable!(),
        Verb::Steps | Verb::Gen | Verb::Explain | Verb::Help | Verb::Version => unreachable!(),
    }
}

/// The reply that tells a place of the root with its values that has no type, by its place in the text.
fn ill_in_root<W: World>(
    alloc: Global,
    verb: Verb,
    text: &[u8],
    table: &Table<W>,
    e: &Expr,
    ill: &Ill,
) -> Result<Reply, AllocError>
    requires spelled { ParsesTo text.now (Ok (state_of table.now).root) }
    requires refused { IsIll [] (term e.now) ill.now.path ill.now.rule }
    ensures { IfOk result (λ r. TypedAnswer verb (root_reading text.now (state_of table.now).root (outcome_of (state_of table.now))) (term e.now) (written r)) }
{
    let path = table.root_path(alloc, ill.path.as_slice())?;
    ill_reply(alloc, None, text, path.as_slice(), ill)
}

/// The reply to the root with its values, by a command that infers its type.
pub(crate) fn typing<W: World>(
    alloc: Global,
    verb: Verb,
    text: &[u8],
    table: &Table<W>,
    e: &Expr,
) -> Result<Reply, AllocError>
    requires types { IsTrue (types verb) }
    requires spelled { ParsesTo text.now (Ok (state_of table.now).root) }
    requires formed { IsWellFormed (term e.now) }
    requires shallow { nesting (term e.now) < 2 ^ 32 }
    requires indices { IndicesBelow (2 ^ 31) (term e.now) }
    ensures { IfOk result (λ r. TypedAnswer verb (root_reading text.now (state_of table.now).root (outcome_of (state_of table.now))) (term e.now) (written r)) }
{
    let mut purse = Purse { left: WHOLE_PURSE };
    match infer(alloc, e, &mut purse) {
        Ok(typed) => typed_reply(alloc, verb, e, &typed),
        Err(TypeFault::Ill(ill)) => ill_in_root(alloc, verb, text, table, e, &ill),
        Err(TypeFault::Wide) => limit(alloc, NormFault::Wide),
        Err(TypeFault::Spent) => limit(alloc, NormFault::Spent),
        Err(TypeFault::Deep) => limit(alloc, NormFault::Deep),
        Err(TypeFault::Memory) => Err(AllocError),
    }
}
