//! The line of a value: the digest of its normal form, the place that has no type, or the limit that is met.

ghost use Rattle.std.specs.Prelude.{◌≡◌, ◌≢◌, ◌≤◌, ◌<◌, ◌+◌, ◌^◌, [], IfOk, IfErr};
ghost use Rattle.dh_command.specs.Answer.{IsTyped, digest_line};
ghost use Rattle.dh_command.specs.declared.statuses.Status.TheVariants as statuses;
ghost use Rattle.dh_record.specs.Values.{IsValue};
ghost use Rattle.dh_script_laws.specs.Asks.{ValueLine};
ghost use Rattle.dh_syntax.specs.Expressions.Arity.{IsWellFormed};
ghost use Rattle.dh_syntax.specs.Expressions.Bridge.{term};
ghost use Rattle.dh_syntax.specs.Expressions.Nesting.{nesting};
ghost use Rattle.dh_syntax.specs.Expressions.Tree.{Term};
ghost use Rattle.dh_syntax.specs.FaultLines.{ill_line, norm_fault_line};
ghost use Rattle.dh_syntax.specs.Limits.{most_nesting, whole_purse};
ghost use Rattle.dh_syntax.specs.Names.Indices.{IndicesBelow};
ghost use Rattle.dh_syntax.specs.Normalising.Named.{names};
ghost use Rattle.dh_syntax.specs.Normalising.Normal.{HasNormalForm, IsLicensed};
ghost use Rattle.dh_syntax.specs.Typing.NamedTyping.{IsTypeFault};
ghost use Rattle.dh_syntax.specs.declared.faults.NormFault.TheVariants as limits;
ghost use Rattle.dh_watch_lines.specs.Lines.{IsTold};

use crate::lines::Told;
use dh_command::Status;
use dh_digest::{digest, digest_text};
use dh_infer::infer;
use dh_norm::normal_form;
use dh_syntax::{Digest, Expr, Ill, NormFault, Purse, TypeFault, WHOLE_PURSE};
use std::alloc::{AllocError, Global};

/// The line of a digest.
fn digest_told(alloc: Global, digest: &Digest) -> Result<Told, AllocError>
    ensures { IfOk result (λ t. IsTold t (digest_line digest.now) statuses.Ok) }
{
    let digits = digest_text(alloc, digest)?;
    let digits = digits.as_str();
    let text = format!(in alloc; "sha256:{digits}")?;
    Ok(Told::of(text, Status::Ok))
}

/// The line of a limit.
fn limit_told(alloc: Global, limit: NormFault) -> Result<Told, AllocError>
    ensures { IfOk result (λ t. IsTold t (norm_fault_line limit) statuses.Limit) }
{
    let text = format!(in alloc; "{limit}")?;
    Ok(Told::of(text, Status::Limit))
}

/// The line of a place that has no type.
fn ill_told(alloc: Global, ill: &Ill) -> Result<Told, AllocError>
    ensures { IfOk result (λ t. IsTold t (ill_line ill.now) statuses.Ill) }
{
    let text = format!(in alloc; "{ill}")?;
    Ok(Told::of(text, Status::Ill))
}

/// The normal form of an expression, found with a whole purse.
fn whole_form(alloc: Global, e: &Expr) -> Result<Expr, NormFault>
    requires formed { IsWellFormed (term e.now) }
    requires shallow { nesting (term e.now) < 2 ^ 32 }
    requires indices { IndicesBelow (2 ^ 31) (term e.now) }
    ensures ok { IfOk result (λ f. HasNormalForm names (term e.now) (term f)) }
    ensures formed { IfOk result (λ f. IsWellFormed (term f)) }
    ensures shallow { IfOk result (λ f. nesting (term f) ≤ most_nesting) }
    ensures indices { IfOk result (λ f. IndicesBelow (2 ^ 31 + most_nesting) (term f)) }
    ensures err { IfErr result (λ l. IsLicensed names nesting whole_purse (term e.now) l) }
{
    let mut purse = Purse { left: WHOLE_PURSE };
    normal_form(alloc, e, &mut purse)
}

/// The line of the limit that a normal form meets, where there is memory for it.
fn limited(alloc: Global, fault: NormFault) -> Result<Told, AllocError>
    ensures { IfOk result (λ t. (fault ≢ limits.Memory) × IsTold t (norm_fault_line fault) statuses.Limit) }
{
    match fault {
        NormFault::Memory => Err(AllocError),
        _ => limit_told(alloc, fault),
    }
}

/// The line of a value that has a type.
fn form_line(alloc: Global, e: &Expr) -> Result<Told, AllocError>
    requires formed { IsWellFormed (term e.now) }
    requires shallow { nesting (term e.now) < 2 ^ 32 }
    requires indices { IndicesBelow (2 ^ 31) (term e.now) }
    requires typed { (t : Term) × IsTyped (term e.now) t }
    ensures { IfOk result (λ t. ValueLine (term e.now) t.text t.status) }
{
    match whole_form(alloc, e) {
        Ok(form) => digest_told(alloc, &digest(alloc, &form)?),
        Err(fault) => limited(alloc, fault),
    }
}

/// The line of a value that is not typed.
fn untyped(alloc: Global, fault: &TypeFault) -> Result<Told, AllocError>
    ensures { IfOk result (λ t. (e : Term) → IsTypeFault [] whole_purse e fault.now → ValueLine e t.text t.status) }
{
    match fault {
        TypeFault::Ill(ill) => ill_told(alloc, ill),
        TypeFault::Wide => limit_told(alloc, NormFault::Wide),
        TypeFault::Spent => limit_told(alloc, NormFault::Spent),
        TypeFault::Deep => limit_told(alloc, NormFault::Deep),
        TypeFault::Memory => Err(AllocError),
    }
}

/// The line of a value.
pub(crate) fn value_line(alloc: Global, e: &Expr) -> Result<Told, AllocError>
    requires { IsValue (term e.now) }
    ensures { IfOk result (λ t. ValueLine (term e.now) t.text t.status) }
{
    let mut purse = Purse { left: WHOLE_PURSE };
    match infer(alloc, e, &mut purse) {
        Ok(_typed) => form_line(alloc, e),
        Err(fault) => untyped(alloc, &fault),
    }
}
