//! What the command does with texts and with items.

ghost use Rattle.std.specs.Prelude.{◌≡◌, IfOk};
ghost use Rattle.dh_record.specs.Brought.{IsParse, IsScanned};
ghost use Rattle.dh_record.specs.declared.news.Noted.TheVariants as noteds;

use dh_demand::import_keys;
use dh_parse::parse;
use dh_ports::Got;
use dh_record::{Done, Item, Parsed};
use dh_syntax::{Loc, ParseFault};
use dh_watch::Worker;
use dh_work::work_item;
use std::alloc::{AllocError, Global};

/// Parses texts as the command does, and makes last steps with its units: code is typed with 16,777,216 of them, and normalised with as
/// many again.
#[derive(Clone, Copy, Debug)]
pub struct CommandWorker;

/// What found bytes parse to, with the keys of their imports; nothing where no bytes were found.
fn scanned(alloc: Global, loc: &Loc, got: &Got) -> Result<Option<Parsed>, AllocError>
    ensures { IfOk result (λ scan. IsScanned loc.now (noteds.Got got.now) scan) }
{
    match got {
        Got::Found(found) => Ok(Some(parsed(alloc, loc, found.bytes.as_slice())?)),
        Got::Absent | Got::Broken(_) => Ok(None),
    }
}

/// What the bytes of a location parse to.
fn parsed(alloc: Global, loc: &Loc, bytes: &[u8]) -> Result<Parsed, AllocError>
    ensures { IfOk result (λ p. IsParse loc.now bytes.now p) }
{
    match parse(alloc, bytes) {
        Ok(expr) => {
            let keys = import_keys(alloc, &expr, Some(loc))?;
            Ok(Parsed::Good { expr, keys })
        }
        Err(fault) => match fault {
            ParseFault::Memory => Err(AllocError),
            _ => Ok(Parsed::Bad(fault)),
        },
    }
}

impl Worker for CommandWorker {
    fn scan(&self, alloc: Global, loc: &Loc, got: &Got) -> Result<Option<Parsed>, AllocError> {
        scanned(alloc, loc, got)
    }

    fn last(&self, alloc: Global, item: Item) -> Result<Done, AllocError> {
        work_item(alloc, item)
    }
}
