//! Whether an expression has a free variable.

ghost use Rattle.std.specs.Prelude.{◌≡◌, ◌<◌, ◌^◌, ◌↔◌, IfOk, IsTrue};
ghost use Rattle.dh_syntax.specs.Expressions.Bridge.{term};
ghost use Rattle.dh_syntax.specs.Expressions.Nesting.{nesting};
ghost use Rattle.dh_imports.specs.Records.{IsClosed};
ghost use Rattle.dh_terms.specs.Cores.{nameless, nameless_row};
ghost use Rattle.dh_work.specs.Inside.Frees.{has_free, has_free_row};

use dh_syntax::Expr;
use dh_terms::{Core, CoreKids, to_core};
use std::alloc::{AllocError, Global};

/// Whether no variable is free in an expression.
pub(crate) fn is_closed(alloc: Global, e: &Expr) -> Result<bool, AllocError>
    requires { nesting (term e.now) < 2 ^ 32 }
    ensures { IfOk result (λ closed. IsTrue closed ↔ IsClosed (term e.now)) }
{
    let core = to_core(alloc, e)?;
    Ok(!has_free(&core))
}

/// Whether a nameless expression has a free variable.
#[cycle(free)]
fn has_free(c: &Core) -> bool
    ensures { result ≡ has_free (nameless c.now) }
{
    match c {
        Core::Bound(_) => false,
        Core::Free(_, _) => true,
        Core::Node(_, kids) => has_free_in(kids),
    }
}

#[cycle(free)]
fn has_free_in(kids: &CoreKids) -> bool
    ensures { result ≡ has_free_row (nameless_row kids.now) }
{
    for kid in kids.as_slice() {
        if has_free(&kid.body) {
            return true;
        }
    }
    false
}
