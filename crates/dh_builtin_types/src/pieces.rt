//! The pieces that the types of built-ins are made of.

ghost use Rattle.std.specs.Prelude.{◌≡◌, ◌<◌, [], ◌∷◌, IfOk};
ghost use Rattle.dh_syntax.specs.Expressions.Forms.{builtin, call, forall};
ghost use Rattle.dh_syntax.specs.Expressions.Tree.{Leaf};
ghost use Rattle.dh_syntax.specs.Names.Nameless.{Bound};
ghost use Rattle.dh_store.specs.Cells.{code_core, AreCoded};
ghost use Rattle.dh_store.specs.Growth.{count};
ghost use Rattle.dh_types.specs.Growing.{Grows, Stands};
ghost use Rattle.dh_builtin_types.specs.Shapes.{arrow};

use dh_store::{CodeId, Codes};
use dh_syntax::{Builtin, Label};
use dh_types::{applied, bound, constant, function_type};
use std::alloc::{AllocError, Global};

/// `∀(name : domain) → range`
pub(crate) fn named(
    alloc: Global,
    codes: &mut Codes,
    name: &str,
    domain: CodeId,
    range: CodeId,
) -> Result<CodeId, AllocError>
    requires coded { AreCoded codes.old }
    requires domain { domain < count codes.old }
    requires range { range < count codes.old }
    ensures grows { Grows codes.old codes.new }
    ensures made { IfOk result (λ c. Stands codes.new c (forall name.now (code_core codes.old domain) (code_core codes.old range))) }
{
    let label = Label::new(alloc, name)?;
    function_type(alloc, codes, label, domain, range)
}

/// `domain → range`
pub(crate) fn arrow(
    alloc: Global,
    codes: &mut Codes,
    domain: CodeId,
    range: CodeId,
) -> Result<CodeId, AllocError>
    requires coded { AreCoded codes.old }
    requires domain { domain < count codes.old }
    requires range { range < count codes.old }
    ensures grows { Grows codes.old codes.new }
    ensures made { IfOk result (λ c. Stands codes.new c (arrow (code_core codes.old domain) (code_core codes.old range))) }
{
    named(alloc, codes, "_", domain, range)
}

/// `∀(name : b) → range`
pub(crate) fn over(
    alloc: Global,
    codes: &mut Codes,
    name: &str,
    domain: Builtin,
    range: CodeId,
) -> Result<CodeId, AllocError>
    requires coded { AreCoded codes.old }
    requires range { range < count codes.old }
    ensures grows { Grows codes.old codes.new }
    ensures made { IfOk result (λ c. Stands codes.new c (forall name.now (builtin domain) (code_core codes.old range))) }
{
    let domain = constant(alloc, codes, domain)?;
    named(alloc, codes, name, domain, range)
}

/// `a → b` of two constants.
pub(crate) fn between(
    alloc: Global,
    codes: &mut Codes,
    domain: Builtin,
    range: Builtin,
) -> Result<CodeId, AllocError>
    requires coded { AreCoded codes.old }
    ensures grows { Grows codes.old codes.new }
    ensures made { IfOk result (λ c. Stands codes.new c (arrow (builtin domain) (builtin range))) }
{
    let range = constant(alloc, codes, range)?;
    over(alloc, codes, "_", domain, range)
}

/// `∀(name : x) → y` of two variables of binders above, each as it is seen from its own place.
pub(crate) fn variables(
    alloc: Global,
    codes: &mut Codes,
    name: &str,
    domain: u32,
    range: u32,
) -> Result<CodeId, AllocError>
    requires coded { AreCoded codes.old }
    ensures grows { Grows codes.old codes.new }
    ensures made { IfOk result (λ c. Stands codes.new c (forall name.now (Leaf (Bound domain)) (Leaf (Bound range)))) }
{
    let domain = bound(codes, domain)?;
    let range = bound(codes, range)?;
    named(alloc, codes, name, domain, range)
}

/// A built-in applied to the variable of a binder above.
pub(crate) fn applied_to(
    alloc: Global,
    codes: &mut Codes,
    function: Builtin,
    variable: u32,
) -> Result<CodeId, AllocError>
    requires coded { AreCoded codes.old }
    ensures grows { Grows codes.old codes.new }
    ensures made { IfOk result (λ c. Stands codes.new c (call function (Leaf (Bound variable) ∷ []))) }
{
    let argument = bound(codes, variable)?;
    applied(alloc, codes, function, argument)
}
