//! Making types over older codes.

ghost use Rattle.std.specs.Prelude.{◌≡◌, ◌<◌, [], ◌∷◌, length, map, IfOk, IsTrue};
ghost use Rattle.dh_syntax.specs.declared.expressions.Op.TheVariants.{RecordType};
ghost use Rattle.dh_syntax.specs.Expressions.Arity.{fits};
ghost use Rattle.dh_syntax.specs.Expressions.Forms as form;
ghost use Rattle.dh_syntax.specs.Expressions.Order.{ascending};
ghost use Rattle.dh_syntax.specs.Expressions.Tree.{Leaf, Node as node_of};
ghost use Rattle.dh_syntax.specs.Names.Nameless as ref;
ghost use Rattle.dh_store.specs.Cells.{code_core, code_row, nothing, takes, AreBelow, AreCoded, AreKidsBelow};
ghost use Rattle.dh_store.specs.Growth.{count};
ghost use Rattle.dh_types.specs.Closed.{IsClosed, IsClosedBelow};
ghost use Rattle.dh_types.specs.Growing.{plain_kid, Grows, Stands};

use dh_store::{Code, CodeId, CodeKid, Codes};
use dh_syntax::{Builtin, Label, Labels, Many, Op};
use std::alloc::{AllocError, Global};

/// Adds a node over older codes.
pub fn node(codes: &mut Codes, op: Op, kids: Many<CodeKid>) -> Result<CodeId, AllocError>
    requires coded { AreCoded codes.old }
    requires there { AreKidsBelow (count codes.old) kids }
    requires fits { IsTrue (fits op (code_row (λ c. nothing) kids)) }
    ensures grows { Grows codes.old codes.new }
    ensures made { IfOk result (λ c. Stands codes.new c (node_of op (code_row (code_core codes.old) kids))) }
{
    codes.push(Code::Node(op, kids))
}

/// Adds the variable of the binder so many above the nearest one.
pub fn bound(codes: &mut Codes, index: u32) -> Result<CodeId, AllocError>
    requires coded { AreCoded codes.old }
    ensures grows { Grows codes.old codes.new }
    ensures made { IfOk result (λ c. Stands codes.new c (Leaf (ref.Bound index))) }
{
    codes.push(Code::Bound(index))
}

/// A part under no binder.
fn plain(code: CodeId) -> CodeKid
    ensures { result ≡ plain_kid code }
{
    CodeKid { binder: None, code }
}

/// Parts under no binder.
fn plain_kids(alloc: Global, ids: &[CodeId]) -> Result<Many<CodeKid>, AllocError>
    ensures { IfOk result (λ ks. ks ≡ map plain_kid ids.now) }
{
    let mut kids = Many::new(alloc);
    for id in ids {
        kids.push(plain(*id))?;
    }
    Ok(kids)
}

/// Adds a node over older codes, none of them under a binder.
pub fn plain_node(
    alloc: Global,
    codes: &mut Codes,
    op: Op,
    parts: &[CodeId],
) -> Result<CodeId, AllocError>
    requires coded { AreCoded codes.old }
    requires there { AreBelow (count codes.old) parts.now }
    requires fits { IsTrue (takes op (length parts.now)) }
    ensures grows { Grows codes.old codes.new }
    ensures made { IfOk result (λ c. Stands codes.new c (node_of op (form.plain_row (map (code_core codes.old) parts.now)))) }
{
    let kids = plain_kids(alloc, parts)?;
    node(codes, op, kids)
}

/// Adds a built-in.
pub fn constant(alloc: Global, codes: &mut Codes, builtin: Builtin) -> Result<CodeId, AllocError>
    requires coded { AreCoded codes.old }
    ensures grows { Grows codes.old codes.new }
    ensures made { IfOk result (λ c. Stands codes.new c (form.builtin builtin)) }
{
    node(codes, Op::Builtin(builtin), Many::new(alloc))
}

/// Adds a built-in applied to one argument, as `List t` and `Optional t`.
pub fn applied(
    alloc: Global,
    codes: &mut Codes,
    builtin: Builtin,
    argument: CodeId,
) -> Result<CodeId, AllocError>
    requires coded { AreCoded codes.old }
    requires there { argument < count codes.old }
    ensures grows { Grows codes.old codes.new }
    ensures made { IfOk result (λ c. Stands codes.new c (form.call builtin (code_core codes.old argument ∷ []))) }
{
    let function = constant(alloc, codes, builtin)?;
    plain_node(alloc, codes, Op::App, &[function, argument])
}

/// Adds the record type with these labels and the types of its fields.
pub fn record_type_of(
    alloc: Global,
    codes: &mut Codes,
    labels: Labels,
    types: &[CodeId],
) -> Result<CodeId, AllocError>
    requires coded { AreCoded codes.old }
    requires there { AreBelow (count codes.old) types.now }
    requires ascends { IsTrue (ascending labels) }
    requires paired { length labels ≡ length types.now }
    ensures grows { Grows codes.old codes.new }
    ensures made { IfOk result (λ c. Stands codes.new c (node_of (RecordType labels) (form.plain_row (map (code_core codes.old) types.now)))) }
{
    plain_node(alloc, codes, Op::RecordType(labels), types)
}

/// Adds `∀(x : domain) → range`.
pub fn function_type(
    alloc: Global,
    codes: &mut Codes,
    x: Label,
    domain: CodeId,
    range: CodeId,
) -> Result<CodeId, AllocError>
    requires coded { AreCoded codes.old }
    requires domain { domain < count codes.old }
    requires range { range < count codes.old }
    ensures grows { Grows codes.old codes.new }
    ensures made { IfOk result (λ c. Stands codes.new c (form.forall x (code_core codes.old domain) (code_core codes.old range))) }
    ensures closed { IsClosed (code_core codes.old domain) → IsClosedBelow (code_core codes.old range) → IfOk result (λ c. IsClosed (code_core codes.new c)) }
{
    let mut kids = Many::new(alloc);
    kids.push(plain(domain))?;
    kids.push(CodeKid {
        binder: Some(x),
        code: range,
    })?;
    node(codes, Op::Pi, kids)
}
