//! Equal copies of expressions and of their parts.

ghost use Rattle.std.specs.Prelude.{◌≡◌, IfOk};

use crate::expressions::{Alts, Expr, Kids, Labels, Pieces};
use crate::faults::Path;
use crate::lists::Many;
use crate::texts::Label;
use std::alloc::{AllocError, Global};

/// An equal label, where there is one.
pub fn copy_name(alloc: Global, name: &Option<Label>) -> Result<Option<Label>, AllocError>
    ensures { IfOk result (λ c. c ≡ name.now) }
{
    match name {
        Some(label) => Ok(Some(label.copied(alloc)?)),
        None => Ok(None),
    }
}

/// An equal list of labels.
pub fn copy_labels(alloc: Global, labels: &Labels) -> Result<Labels, AllocError>
    ensures { IfOk result (λ c. c ≡ labels.now) }
{
    let mut done = Many::new(alloc);
    for label in labels.as_slice() {
        done.push(label.copied(alloc)?)?;
    }
    Ok(done)
}

/// An equal list of pieces.
pub fn copy_pieces(alloc: Global, pieces: &Pieces) -> Result<Pieces, AllocError>
    ensures { IfOk result (λ c. c ≡ pieces.now) }
{
    let mut done = Many::new(alloc);
    for piece in pieces.as_slice() {
        done.push(piece.copied(alloc)?)?;
    }
    Ok(done)
}

/// An equal list of alternatives.
pub fn copy_alts(alloc: Global, alts: &Alts) -> Result<Alts, AllocError>
    ensures { IfOk result (λ c. c ≡ alts.now) }
{
    let mut done = Many::new(alloc);
    for alt in alts.as_slice() {
        done.push(alt.copied(alloc)?)?;
    }
    Ok(done)
}

/// An equal path.
pub fn copy_path(alloc: Global, path: &Path) -> Result<Path, AllocError>
    ensures { IfOk result (λ c. c ≡ path.now) }
{
    let steps = Vec::from_slice(alloc, path.as_slice())?;
    Ok(Many::of(steps))
}

/// An equal list of kids.
#[cycle(copy)]
pub fn copy_kids(alloc: Global, kids: &Kids) -> Result<Kids, AllocError>
    ensures { IfOk result (λ c. c ≡ kids.now) }
{
    let mut done = Many::new(alloc);
    for kid in kids.as_slice() {
        done.push(kid.copied(alloc)?)?;
    }
    Ok(done)
}

/// An equal expression.
#[cycle(copy)]
pub fn copy(alloc: Global, e: &Expr) -> Result<Expr, AllocError>
    ensures { IfOk result (λ c. c ≡ e.now) }
{
    match e {
        Expr::Var(name, index) => Ok(Expr::Var(name.copied(alloc)?, *index)),
        Expr::Node(op, kids) => {
            let op = op.copied(alloc)?;
            let kids = copy_kids(alloc, kids)?;
            Ok(Expr::Node(op, kids))
        }
    }
}
