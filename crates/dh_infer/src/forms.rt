//! What a code is, as typing sees it.

ghost use Rattle.std.specs.Prelude.{◌≡◌, ◌<◌, ℕ, IsTrue, length};
ghost use Rattle.dh_syntax.specs.declared.expressions.Op.TheVariants.{Let, Bin};
ghost use Rattle.dh_syntax.specs.Expressions.Arity.{binding, fits, plain};
ghost use Rattle.dh_syntax.specs.Expressions.Tree.{Node};
ghost use Rattle.dh_syntax.specs.Names.Nameless.{Core};
ghost use Rattle.dh_store.specs.Cells.{code_row, AreCoded, AreKidsBelow};
ghost use Rattle.dh_store.specs.Growth.{count};
ghost use Rattle.dh_infer.specs.Inside.Forms.{IsBinding, IsTwiceBinding, IsForm, IsFormThere, IsPair};
ghost use Rattle.dh_infer.specs.Inside.Scopes.{Models};

use dh_store::{Code, CodeId, CodeKid, Codes};
use dh_syntax::{BinOp, Builtin, Label, Op};

/// What a code is, as typing sees it.
#[derive(Clone, Copy)]
pub(crate) enum Form<'a> {
    /// The variable of the binder so many above the nearest one.
    Bound(u32),
    /// The variable with this number.
    Level(u32),
    /// Another variable that no binder binds.
    Free,
    Builtin(Builtin),
    Bool,
    Natural,
    Integer,
    /// The variable, the domain and the body.
    Lambda(&'a Label, CodeId, CodeId),
    /// The variable, the domain and the range.
    Forall(&'a Label, CodeId, CodeId),
    /// The value and the body.
    Let(CodeId, CodeId),
    /// The annotation, the value and the body.
    LetTyped(CodeId, CodeId, CodeId),
    /// The function and the argument.
    Application(CodeId, CodeId),
    /// The type and the record.
    Completion(CodeId, CodeId),
    /// A node with the rule of a group, none of whose parts stands under a binder.
    Plain,
}

/// Two parts, the second under a binder, and the variable of that binder.
fn binding_parts(kids: &[CodeKid]) -> (&Label, CodeId, CodeId)
    requires two { length kids.now ≡ 2 }
    requires binding { (g : ℕ → Core) → IsTrue (binding 1 (code_row g kids.now)) }
    ensures parts { (g : ℕ → Core) → IsBinding g (code_row g kids.now) result.0.now result.1 result.2 }
    ensures there { (n : ℕ) → AreKidsBelow n kids.now → (result.1 < n) × (result.2 < n) }
{
    match &kids[1].binder {
        Some(name) => (name, kids[0].code, kids[1].code),
        None => unreachable!(),
    }
}

/// Three parts, the third under a binder.
fn typed_binding_parts(kids: &[CodeKid]) -> (CodeId, CodeId, CodeId)
    requires three { length kids.now ≡ 3 }
    requires binding { (g : ℕ → Core) → IsTrue (binding 2 (code_row g kids.now)) }
    ensures parts { (g : ℕ → Core) → IsTwiceBinding g (code_row g kids.now) result.0 result.1 result.2 }
    ensures there { (n : ℕ) → AreKidsBelow n kids.now → (result.0 < n) × (result.1 < n) × (result.2 < n) }
{
    (kids[0].code, kids[1].code, kids[2].code)
}

/// Two parts under no binder.
fn pair_parts(kids: &[CodeKid]) -> (CodeId, CodeId)
    requires two { length kids.now ≡ 2 }
    requires plain { (g : ℕ → Core) → IsTrue (plain 2 (code_row g kids.now)) }
    ensures parts { (g : ℕ → Core) → IsPair g (code_row g kids.now) result.0 result.1 }
    ensures there { (n : ℕ) → AreKidsBelow n kids.now → (result.0 < n) × (result.1 < n) }
{
    (kids[0].code, kids[1].code)
}

/// What a `let` is.
fn let_form(typed: bool, kids: &[CodeKid]) -> Form<'_>
    requires { (g : ℕ → Core) → IsTrue (fits (Let typed) (code_row g kids.now)) }
    ensures form { (g : ℕ → Core) → IsForm g (Node (Let typed) (code_row g kids.now)) result }
    ensures there { (n : ℕ) → AreKidsBelow n kids.now → IsFormThere n result }
{
    if typed {
        let (annotation, value, body) = typed_binding_parts(kids);
        Form::LetTyped(annotation, value, body)
    } else {
        let (_name, value, body) = binding_parts(kids);
        Form::Let(value, body)
    }
}

/// What an operator between two expressions is.
fn binary_form(operator: BinOp, kids: &[CodeKid]) -> Form<'_>
    requires { (g : ℕ → Core) → IsTrue (fits (Bin operator) (code_row g kids.now)) }
    ensures form { (g : ℕ → Core) → IsForm g (Node (Bin operator) (code_row g kids.now)) result }
    ensures there { (n : ℕ) → AreKidsBelow n kids.now → IsFormThere n result }
{
    match operator {
        BinOp::Complete => {
            let (typed, record) = pair_parts(kids);
            Form::Completion(typed, record)
        }
        _ => Form::Plain,
    }
}

/// What a node is.
fn node_form<'a>(op: &Op, kids: &'a [CodeKid]) -> Form<'a>
    requires { (g : ℕ → Core) → IsTrue (fits op.now (code_row g kids.now)) }
    ensures form { (g : ℕ → Core) → IsForm g (Node op.now (code_row g kids.now)) result }
    ensures there { (n : ℕ) → AreKidsBelow n kids.now → IsFormThere n result }
{
    match op {
        Op::Builtin(builtin) => Form::Builtin(*builtin),
        Op::Bool(_) => Form::Bool,
        Op::Nat(_) => Form::Natural,
        Op::Int(_) => Form::Integer,
        Op::Lam => {
            let (name, domain, body) = binding_parts(kids);
            Form::Lambda(name, domain, body)
        }
        Op::Pi => {
            let (name, domain, range) = binding_parts(kids);
            Form::Forall(name, domain, range)
        }
        Op::Let(typed) => let_form(*typed, kids),
        Op::App => {
            let (function, argument) = pair_parts(kids);
            Form::Application(function, argument)
        }
        Op::Bin(operator) => binary_form(*operator, kids),
        _ => Form::Plain,
    }
}

/// What a code is.
pub(crate) fn form_of(codes: &Codes, id: CodeId) -> Form<'_>
    requires coded { AreCoded codes.now }
    requires there { id < count codes.now }
    ensures form { (g : ℕ → Core) → Models codes.now g → IsForm g (g id) result }
    ensures there { IsFormThere (count codes.now) result }
{
    match codes.get(id) {
        Some(Code::Node(op, kids)) => node_form(op, kids.as_slice()),
        Some(Code::Free(name, number)) => {
            if name.as_str().is_empty() {
                Form::Level(*number)
            } else {
                Form::Free
            }
        }
        Some(Code::Bound(index)) => Form::Bound(*index),
        None => unreachable!(),
    }
}
