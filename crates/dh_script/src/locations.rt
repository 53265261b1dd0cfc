//! The location that a text spells: that of an import as code, without a digest, that is not `missing` (`dhall.abnf`, "import").

ghost use Rattle.std.specs.Prelude.{◌≡◌, ◌≢◌, None, IfOk, IfSome};
ghost use Rattle.std.specs.Option.{option_copied};
ghost use Rattle.dh_script.specs.Locations.{IsPlace};
ghost use Rattle.dh_script.specs.Inside.Imports.{chained, imported, plain, plain_if, plain_import, somewhere};
ghost use Rattle.dh_script.specs.Reads.{IsLocated};
ghost use Rattle.dh_syntax.specs.declared.faults.ParseFault.TheVariants.{Memory};
ghost use Rattle.dh_syntax.specs.Expressions.Bridge.{term};

use dh_parse::parse;
use dh_paths::chain;
use dh_syntax::{Expr, Import, Loc, Mode, Op, ParseFault};
use std::alloc::{AllocError, Global};

/// A location, unless it is `missing`.
fn somewhere(loc: &Loc) -> Option<&Loc>
    ensures { option_copied result ≡ somewhere loc.now }
{
    match loc {
        Loc::Abs(_) | Loc::Here(_) | Loc::Parent(_) | Loc::Home(_) => Some(loc),
        Loc::Http(_) | Loc::Https(_) | Loc::Env(_) => Some(loc),
        Loc::Missing => None,
    }
}

/// The location of an import as code, without a digest, that is not `missing`.
fn plain_import(import: &Import) -> Option<&Loc>
    ensures { option_copied result ≡ plain_import import.now }
{
    match import.mode {
        Mode::Code => match import.digest {
            None => somewhere(&import.loc),
            Some(_) => None,
        },
        Mode::Text | Mode::Location => None,
    }
}

/// The import of an operator.
fn imported(op: &Op) -> Option<&Import>
    ensures { option_copied result ≡ imported op.now }
{
    match op {
        Op::Import(import) => Some(import.get()),
        Op::Builtin(_) | Op::Bool(_) | Op::Nat(_) | Op::Int(_) | Op::Text(_) => None,
        Op::Lam | Op::Pi | Op::Let(_) | Op::App | Op::If | Op::Bin(_) => None,
        Op::EmptyList | Op::List | Op::Some | Op::Merge(_) | Op::RecordType(_) => None,
        Op::Record(_) | Op::Field(_) | Op::Project(_) | Op::ProjectType => None,
        Op::Union(_) | Op::Assert | Op::Annot | Op::ToMap(_) | Op::With(_) => None,
    }
}

/// The location of an operator that is such an import.
fn plain_operator(op: &Op) -> Option<&Loc>
    ensures { option_copied result ≡ plain_if (imported op.now) }
{
    match imported(op) {
        Some(import) => plain_import(import),
        None => None,
    }
}

/// The location of an expression that is such an import.
fn plain(expression: &Expr) -> Option<&Loc>
    ensures { option_copied result ≡ plain (term expression.now) }
{
    match expression {
        Expr::Var(_, _) => None,
        Expr::Node(op, kids) => {
            if kids.is_empty() {
                plain_operator(op)
            } else {
                None
            }
        }
    }
}

/// The location of an expression that is such an import, made canonical.
fn canonical(alloc: Global, expression: &Expr) -> Result<Option<Loc>, AllocError>
    ensures { IfOk result (λ l. l ≡ chained (plain (term expression.now))) }
{
    match plain(expression) {
        Some(loc) => Ok(Some(chain(alloc, None, loc)?)),
        None => Ok(None),
    }
}

/// No location, unless memory was wanting.
fn nowhere(fault: ParseFault) -> Result<Option<Loc>, AllocError>
    ensures { IfOk result (λ l. (l ≡ None) × (fault ≢ Memory)) }
{
    match fault {
        ParseFault::NotUtf8(_) | ParseFault::TooLarge | ParseFault::TooNested => Ok(None),
        ParseFault::Syntax(_) | ParseFault::Wide(_) | ParseFault::Out(_) => Ok(None),
        ParseFault::Memory => Err(AllocError),
    }
}

/// The location that a text spells, made canonical. `None` where it spells none: no import, or one that is read as a text or as a location,
/// or that has a digest, or `missing`.
pub fn read_location(alloc: Global, text: &[u8]) -> Result<Option<Loc>, AllocError>
    ensures located { IfOk result (IsLocated text.now) }
    ensures place { IfOk result (λ l. IfSome l IsPlace) }
{
    match parse(alloc, text) {
        Ok(expression) => canonical(alloc, &expression),
        Err(fault) => nowhere(fault),
    }
}
