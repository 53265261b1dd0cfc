//! The parts of a node by their places.

ghost use Rattle.std.specs.Prelude.{◌≡◌, ◌∷◌, [], ℕ, true, Some, None, IfSome, IfNone};
ghost use Rattle.dh_syntax.specs.Bytes.Binary.{enc, form};
ghost use Rattle.dh_syntax.specs.Expressions.Arity.{plain, binding};
ghost use Rattle.dh_syntax.specs.Expressions.Bridge.{term, row_of};
ghost use Rattle.dh_syntax.specs.Expressions.Rows.{◌+++◌};
ghost use Rattle.dh_syntax.specs.Expressions.Tree.{Node, end, kid};

use dh_syntax::{Expr, Kid, Label, Op};

/// The only part.
pub(crate) fn one(kids: &[Kid]) -> &Expr
    requires { plain 1 (row_of kids.now) ≡ true }
    ensures { row_of kids.now ≡ kid None (term result.now) end }
{
    &kids[0].body
}

/// The two parts.
pub(crate) fn two(kids: &[Kid]) -> (&Expr, &Expr)
    requires { plain 2 (row_of kids.now) ≡ true }
    ensures { row_of kids.now ≡ kid None (term result.0.now) (kid None (term result.1.now) end) }
{
    (&kids[0].body, &kids[1].body)
}

/// The parts of an application.
pub(crate) fn as_application(e: &Expr) -> Option<&[Kid]>
    ensures some { IfSome result (λ ks. term e.now ≡ Node Op.App (row_of ks.now)) }
    ensures none { IfNone result ((form (term e.now)).applied ≡ enc (term e.now) ∷ []) }
{
    match e {
        Expr::Node(op, kids) => match op {
            Op::App => Some(kids.as_slice()),
            _ => None,
        },
        Expr::Var(_, _) => None,
    }
}

/// The parts of a let, and whether its variable has a written type.
pub(crate) fn as_let(e: &Expr) -> Option<(bool, &[Kid])>
    ensures some { IfSome result (λ l. term e.now ≡ Node (Op.Let l.0) (row_of l.1.now)) }
    ensures none { IfNone result ((form (term e.now)).bound ≡ enc (term e.now) ∷ []) }
{
    match e {
        Expr::Node(op, kids) => match op {
            Op::Let(typed) => Some((*typed, kids.as_slice())),
            _ => None,
        },
        Expr::Var(_, _) => None,
    }
}

/// The last part with the variable that it stands under, and the parts before it.
#[derive(Clone, Copy)]
pub(crate) struct Scope<'a> {
    pub front: &'a [Kid],
    pub name: &'a Label,
    pub body: &'a Expr,
}

/// The parts of a node that binds a variable in its last one.
pub(crate) fn scope_of(kids: &[Kid]) -> Scope<'_>
    requires { (n : ℕ) × (binding n (row_of kids.now) ≡ true) }
    ensures whole { row_of kids.now ≡ row_of result.front.now +++ kid (Some result.name.now) (term result.body.now) end }
    ensures front { (n : ℕ) → binding n (row_of kids.now) ≡ true → plain n (row_of result.front.now) ≡ true }
{
    match kids.split_last() {
        Some((last, front)) => match &last.binder {
            Some(name) => Scope {
                front,
                name,
                body: &last.body,
            },
            None => unreachable!(),
        },
        None => unreachable!(),
    }
}
