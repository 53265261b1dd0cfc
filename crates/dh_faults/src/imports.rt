//! The line and the status of a fault of an import.

ghost use Rattle.std.specs.Prelude.{◌≡◌, ◌++◌, Some, IfOk, OnOk, codes, string_bytes};
ghost use Rattle.std.specs.Option.{option_copied};
ghost use Rattle.dh_syntax.specs.Imports.Locations.{loc_text};
ghost use Rattle.dh_imports.specs.ImportFaults.{in_item, differs_line, why_line};
ghost use Rattle.dh_syntax.specs.Text.Printed.{digest_digits};
ghost use Rattle.dh_command.specs.Statuses.{why_status, type_status};

use dh_command::Status;
use dh_digest::digest_text;
use dh_imports::Why;
use dh_paths::loc_text;
use dh_syntax::{Digest, Key, Loc, TypeFault};
use std::alloc::{AllocError, Global};

/// The line of a fault of an item at a location.
fn in_text(alloc: Global, loc: &Loc, text: &str) -> Result<String, AllocError>
    ensures { IfOk result (λ line. string_bytes line ≡ codes "in " ++ loc_text loc.now ++ codes ": " ++ text.now) }
{
    let place = loc_text(alloc, loc)?;
    let mut line = String::from_str(alloc, "in ")?;
    line.push_str(place.as_str())?;
    line.push_str(": ")?;
    line.push_str(text)?;
    Ok(line)
}

/// The line of a fault of an item: one that has a key tells where it is.
pub fn in_item(alloc: Global, at: Option<&Key>, text: &str) -> Result<String, AllocError>
    ensures { IfOk result (λ line. string_bytes line ≡ in_item (option_copied at.entry) text.now) }
{
    match at {
        None => String::from_str(alloc, text),
        Some(key) => in_text(alloc, &key.loc, text),
    }
}

/// Adds the digits of a digest.
fn push_digits(alloc: Global, line: &mut String, digest: &Digest) -> Result<(), AllocError>
    ensures { OnOk result (string_bytes line.new ≡ string_bytes line.old ++ digest_digits digest.now) }
{
    let digits = digest_text(alloc, digest)?;
    line.push_str(digits.as_str())
}

/// The line of a value that is another one than was asked for.
fn differing(alloc: Global, wanted: &Digest, got: &Digest) -> Result<String, AllocError>
    ensures { IfOk result (λ line. string_bytes line ≡ differs_line wanted.now got.now) }
{
    let mut line = String::from_str(alloc, "digest differs: wanted ")?;
    push_digits(alloc, &mut line, wanted)?;
    line.push_str(" got ")?;
    push_digits(alloc, &mut line, got)?;
    Ok(line)
}

/// Why an item has no value, as one line without its line feed.
pub fn why_text(alloc: Global, why: &Why) -> Result<String, AllocError>
    ensures { IfOk result (λ line. string_bytes line ≡ why_line why.now) }
{
    match why {
        Why::Parse(fault) => format!(in alloc; "{fault}"),
        Why::Typing(fault) => format!(in alloc; "{fault}"),
        Why::Norm(fault) => format!(in alloc; "{fault}"),
        Why::Absent => String::from_str(alloc, "absent"),
        Why::Missing => String::from_str(alloc, "missing"),
        Why::Broken(status) => format!(in alloc; "status {status}"),
        Why::Https => String::from_str(alloc, "https is refused"),
        Why::Failed => String::from_str(alloc, "device failed"),
        Why::Differs { wanted, got } => differing(alloc, wanted, got),
        Why::Insane(loc) => {
            let place = loc_text(alloc, loc)?;
            let place = place.as_str();
            format!(in alloc; "may not import {place}")
        }
        Why::Cors(loc) => {
            let place = loc_text(alloc, loc)?;
            let place = place.as_str();
            format!(in alloc; "cross-origin import of {place} refused")
        }
        Why::Cycle => String::from_str(alloc, "import cycle"),
        Why::TooMany => String::from_str(alloc, "more than 4096 imports"),
    }
}

/// The status of a fault of typing.
fn type_status(fault: &TypeFault) -> Status
    ensures { result ≡ type_status fault.now }
{
    match fault {
        TypeFault::Ill(_) => Status::Ill,
        TypeFault::Wide | TypeFault::Spent | TypeFault::Deep => Status::Limit,
        TypeFault::Memory => Status::Memory,
    }
}

/// The status of a run that an item without a value decides.
pub fn why_status(why: &Why) -> Status
    ensures { result ≡ why_status why.now }
{
    match why {
        Why::Parse(_) => Status::Text,
        Why::Typing(fault) => type_status(fault),
        Why::Norm(_) | Why::TooMany => Status::Limit,
        Why::Absent | Why::Missing | Why::Broken(_) | Why::Https => Status::Import,
        Why::Differs { wanted: _, got: _ } => Status::Import,
        Why::Insane(_) | Why::Cors(_) | Why::Cycle => Status::Import,
        Why::Failed => Status::Desk,
    }
}
