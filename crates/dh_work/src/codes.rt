//! The last step of code: it is typed, and its value is its normal form.

ghost use Rattle.std.specs.Prelude.{◌≡◌, ◌≢◌, ◌≤◌, [], Some, IfOk, IfErr};
ghost use Rattle.dh_syntax.specs.declared.faults.NormFault.TheVariants as norms;
ghost use Rattle.dh_imports.specs.declared.outcomes.Outcome.TheVariants as outcomes;
ghost use Rattle.dh_imports.specs.declared.outcomes.Why.TheVariants as whys;
ghost use Rattle.dh_syntax.specs.Expressions.Arity.{IsWellFormed};
ghost use Rattle.dh_syntax.specs.Expressions.Bridge.{term};
ghost use Rattle.dh_syntax.specs.Expressions.Nesting.{nesting};
ghost use Rattle.dh_imports.specs.Records.{IsTyped};
ghost use Rattle.dh_syntax.specs.Limits.{most_nesting, whole_purse};
ghost use Rattle.dh_syntax.specs.Normalising.Named.{names};
ghost use Rattle.dh_syntax.specs.Normalising.Normal.{HasNormalForm, IsLicensed};
ghost use Rattle.dh_syntax.specs.Typing.NamedTyping.{IsTypeFault};
ghost use Rattle.dh_record.specs.Values.{IsCode};
ghost use Rattle.dh_work.specs.Inside.Coming.{IsCodeCame};

use crate::outcomes::{fetched, own_fault};
use dh_imports::{Outcome, Why};
use dh_infer::infer;
use dh_norm::normal_form;
use dh_syntax::{Bytes, Expr, Key, NormFault, Purse, TypeFault, WHOLE_PURSE};
use std::alloc::{AllocError, Global};

/// What comes of an item.
#[derive(Debug, Drop)]
pub(crate) enum Came {
    /// The outcome of its last step.
    Last(Outcome),
    /// A limit that is licensed for it.
    Limit(Outcome),
}

/// The limit of a key's own.
fn limit(alloc: Global, key: &Key, why: Why) -> Result<Came, AllocError>
    ensures { IfOk result (λ came. came ≡ Came.Limit (outcomes.Bad (record { at = Some key.now; why = why }))) }
{
    Ok(Came::Limit(own_fault(alloc, key, why)?))
}

/// What comes of code that has no type, or meets a limit of typing.
fn untyped(
    alloc: Global,
    key: &Key,
    code: &Expr,
    allow: &Option<Bytes>,
    fault: TypeFault,
) -> Result<Came, AllocError>
    requires { IsTypeFault [] whole_purse (term code.now) fault }
    ensures { IfOk result (λ came. IsCodeCame key.now (term code.now) allow.now came) }
{
    match fault {
        TypeFault::Ill(ill) => {
            let why = Why::Typing(TypeFault::Ill(ill));
            Ok(Came::Last(own_fault(alloc, key, why)?))
        }
        TypeFault::Wide => limit(alloc, key, Why::Typing(TypeFault::Wide)),
        TypeFault::Spent => limit(alloc, key, Why::Typing(TypeFault::Spent)),
        TypeFault::Deep => limit(alloc, key, Why::Typing(TypeFault::Deep)),
        TypeFault::Memory => Err(AllocError),
    }
}

/// The limit of normalising, where there is memory for it.
fn unnormalised(alloc: Global, key: &Key, fault: NormFault) -> Result<Came, AllocError>
    ensures { IfOk result (λ came. (fault ≢ norms.Memory) × (came ≡ Came.Limit (outcomes.Bad (record { at = Some key.now; why = whys.Norm fault })))) }
{
    match fault {
        NormFault::Memory => Err(AllocError),
        _ => limit(alloc, key, Why::Norm(fault)),
    }
}

/// The normal form of code, found with a whole purse.
fn whole_form(alloc: Global, code: &Expr) -> Result<Expr, NormFault>
    requires { IsCode (term code.now) }
    ensures ok { IfOk result (λ f. HasNormalForm names (term code.now) (term f)) }
    ensures formed { IfOk result (λ f. IsWellFormed (term f)) }
    ensures shallow { IfOk result (λ f. nesting (term f) ≤ most_nesting) }
    ensures err { IfErr result (λ l. IsLicensed names nesting whole_purse (term code.now) l) }
{
    let mut purse = Purse { left: WHOLE_PURSE };
    normal_form(alloc, code, &mut purse)
}

/// What comes of code that has a type.
fn typed(alloc: Global, key: &Key, code: &Expr, allow: &Option<Bytes>) -> Result<Came, AllocError>
    requires code { IsCode (term code.now) }
    requires typed { IsTyped (term code.now) }
    ensures { IfOk result (λ came. IsCodeCame key.now (term code.now) allow.now came) }
{
    let origin = fetched(alloc, allow)?;
    match whole_form(alloc, code) {
        Ok(value) => Ok(Came::Last(Outcome::Good { value, origin })),
        Err(fault) => unnormalised(alloc, key, fault),
    }
}

/// What comes of the code of a key. It is typed with a whole purse, and then normalised with another one.
pub(crate) fn code_came(
    alloc: Global,
    key: &Key,
    code: &Expr,
    allow: &Option<Bytes>,
) -> Result<Came, AllocError>
    requires { IsCode (term code.now) }
    ensures { IfOk result (λ came. IsCodeCame key.now (term code.now) allow.now came) }
{
    let mut purse = Purse { left: WHOLE_PURSE };
    match infer(alloc, code, &mut purse) {
        Ok(_) => typed(alloc, key, code, allow),
        Err(fault) => untyped(alloc, key, code, allow, fault),
    }
}
