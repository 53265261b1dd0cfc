//! The keys of the imports of an expression.

ghost use Rattle.std.specs.Prelude.{◌≡◌, ◌++◌, IfOk, OnOk};
ghost use Rattle.std.specs.Option.{option_copied};
ghost use Rattle.dh_syntax.specs.Expressions.Bridge.{term, row_of};
ghost use Rattle.dh_syntax.specs.Imports.Keys.{chained};
ghost use Rattle.dh_imports.specs.Walk.{form_of, keys_of, keys_of_form, keys_of_row};
ghost use Rattle.dh_demand.specs.Inside.Parts.{import_of_form};

use dh_paths::chain;
use dh_syntax::{Expr, Import, Key, Kids, Loc, Many, Op};
use std::alloc::{AllocError, Global};

/// The key of each import of an expression in a text at this parent, in the order of a walk ("Import resolution", chaining of
/// imports). With no parent, the text is the input.
pub fn import_keys(alloc: Global, e: &Expr, parent: Option<&Loc>) -> Result<Many<Key>, AllocError>
    ensures { IfOk result (λ ks. ks ≡ keys_of (option_copied parent.entry) (term e.now)) }
{
    let mut keys = Many::new(alloc);
    push_keys(alloc, e, parent, &mut keys)?;
    Ok(keys)
}

#[cycle(key_lists)]
fn push_keys(
    alloc: Global,
    e: &Expr,
    parent: Option<&Loc>,
    keys: &mut Many<Key>,
) -> Result<(), AllocError>
    ensures { OnOk result (keys.new ≡ keys.old ++ keys_of (option_copied parent.entry) (term e.now)) }
{
    match e {
        Expr::Var(_, _) => Ok(()),
        Expr::Node(op, kids) => {
            push_own(alloc, op, parent, keys)?;
            push_parts(alloc, kids, parent, keys)?;
            Ok(())
        }
    }
}

#[cycle(key_lists)]
fn push_parts(
    alloc: Global,
    kids: &Kids,
    parent: Option<&Loc>,
    keys: &mut Many<Key>,
) -> Result<(), AllocError>
    ensures { OnOk result (keys.new ≡ keys.old ++ keys_of_row (option_copied parent.entry) (row_of kids.now)) }
{
    for kid in kids.as_slice() {
        push_keys(alloc, &kid.body, parent, keys)?;
    }
    Ok(())
}

// Adds the key of a node itself, where it is an import.
fn push_own(
    alloc: Global,
    op: &Op,
    parent: Option<&Loc>,
    keys: &mut Many<Key>,
) -> Result<(), AllocError>
    ensures { OnOk result (keys.new ≡ keys.old ++ keys_of_form (option_copied parent.entry) (form_of op.now)) }
{
    match import_of(op) {
        Some(import) => {
            keys.push(chained_key(alloc, parent, import)?)?;
            Ok(())
        }
        None => Ok(()),
    }
}

fn chained_key(alloc: Global, parent: Option<&Loc>, import: &Import) -> Result<Key, AllocError>
    ensures { IfOk result (λ k. k ≡ chained (option_copied parent.entry) import.now) }
{
    let loc = chain(alloc, parent, &import.loc)?;
    Ok(Key {
        loc,
        mode: import.mode,
        digest: import.digest,
    })
}

fn import_of(op: &Op) -> Option<&Import>
    ensures { option_copied result ≡ import_of_form (form_of op.now) }
{
    match op {
        Op::Import(import) => Some(import.get()),
        Op::Builtin(_) | Op::Bool(_) | Op::Nat(_) | Op::Int(_) | Op::Text(_) => None,
        Op::Lam | Op::Pi | Op::Let(_) | Op::App | Op::If | Op::Bin(_) => None,
        Op::EmptyList | Op::List | Op::Some | Op::Merge(_) | Op::RecordType(_) => None,
        Op::Record(_) | Op::Field(_) | Op::Project(_) | Op::ProjectType => None,
        Op::Union(_) | Op::Assert | Op::Annot | Op::ToMap(_) | Op::With(_) => None,
    }
}
