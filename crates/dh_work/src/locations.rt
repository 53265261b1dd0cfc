//! Locations as values (the standard's "Import resolution", `as Location`).

ghost use Rattle.std.specs.Prelude.{◌≡◌, None, IfOk};
ghost use Rattle.dh_syntax.specs.Expressions.Bridge.{term};
ghost use Rattle.dh_syntax.specs.Expressions.Forms as form;
ghost use Rattle.dh_imports.specs.LastStep as last;

use crate::literals::plain_text;
use dh_paths::loc_text;
use dh_syntax::{Alt, Builtin, Expr, Kid, Label, Loc, Many, Op};
use std::alloc::{AllocError, Global};

/// A part that stands under no binder.
fn part(body: Expr) -> Kid
    ensures { result ≡ record { binder = None; body = body } }
{
    Kid { binder: None, body }
}

/// An alternative of the type of locations.
fn alternative(alloc: Global, label: &str, typed: bool) -> Result<Alt, AllocError>
    ensures { IfOk result (λ a. a ≡ record { label = label.now; typed = typed }) }
{
    let label = Label::new(alloc, label)?;
    Ok(Alt { label, typed })
}

/// `< Environment : Text | Local : Text | Missing | Remote : Text >`
fn location_type(alloc: Global) -> Result<Expr, AllocError>
    ensures { IfOk result (λ e. term e ≡ last.location_type) }
{
    let mut alts = Many::new(alloc);
    alts.push(alternative(alloc, "Environment", true)?)?;
    alts.push(alternative(alloc, "Local", true)?)?;
    alts.push(alternative(alloc, "Missing", false)?)?;
    alts.push(alternative(alloc, "Remote", true)?)?;
    let mut types = Many::new(alloc);
    types.push(part(text_type(alloc)))?;
    types.push(part(text_type(alloc)))?;
    types.push(part(text_type(alloc)))?;
    Ok(Expr::Node(Op::Union(alts), types))
}

fn text_type(alloc: Global) -> Expr
    ensures { term result ≡ last.text_type }
{
    Expr::Node(Op::Builtin(Builtin::Text), Many::new(alloc))
}

/// An alternative, as the function that makes it or as the value that it is.
fn selected(alloc: Global, label: &str) -> Result<Expr, AllocError>
    ensures { IfOk result (λ e. term e ≡ form.field last.location_type label.now) }
{
    let label = Label::new(alloc, label)?;
    let mut kids = Many::new(alloc);
    kids.push(part(location_type(alloc)?))?;
    Ok(Expr::Node(Op::Field(label), kids))
}

/// An alternative with its text.
fn located(alloc: Global, label: &str, text: &str) -> Result<Expr, AllocError>
    ensures { IfOk result (λ e. term e ≡ last.located label.now text.now) }
{
    let mut kids = Many::new(alloc);
    kids.push(part(selected(alloc, label)?))?;
    kids.push(part(plain_text(alloc, text)?))?;
    Ok(Expr::Node(Op::App, kids))
}

/// A location as a value; an environment variable has its bare name.
pub(crate) fn location_value(alloc: Global, loc: &Loc) -> Result<Expr, AllocError>
    ensures { IfOk result (λ e. term e ≡ last.location_value loc.now) }
{
    match loc {
        Loc::Http(_) | Loc::Https(_) => located(alloc, "Remote", loc_text(alloc, loc)?.as_str()),
        Loc::Env(name) => located(alloc, "Environment", name.as_str()),
        Loc::Missing => selected(alloc, "Missing"),
        Loc::Abs(_) | Loc::Here(_) | Loc::Parent(_) | Loc::Home(_) => {
            located(alloc, "Local", loc_text(alloc, loc)?.as_str())
        }
    }
}
