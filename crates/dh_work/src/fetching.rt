//! Texts are fetched and parsed.

ghost use Rattle.std.specs.Prelude.{◌≡◌, ◌≤◌, IfOk};
ghost use Rattle.dh_ports.specs.Counts.{one_more};
ghost use Rattle.dh_record.specs.Brought.{BringsText, IsParse, IsScanned};
ghost use Rattle.dh_record.specs.declared.news.Noted.TheVariants as noteds;
ghost use Rattle.dh_work.specs.Brings.{IsTextAt, TellsFailure};

use dh_demand::import_keys;
use dh_parse::parse;
use dh_ports::{Desk, DeskError, Got, World};
use dh_record::{News, Noted, Parsed};
use dh_syntax::{Loc, ParseFault};
use std::alloc::{AllocError, Global};

/// What a desk finds at a location, with what it parses to and the keys of its imports ("Import resolution"); or that the device
/// failed.
pub fn fetch_text<W: World, D: Desk<W>>(
    alloc: Global,
    desk: &mut D,
    loc: Loc,
) -> Result<News, AllocError>
    ensures brings { IfOk result (λ news. BringsText W.told news) }
    ensures own { IfOk result (λ news. IsTextAt loc news) }
    ensures asked { D.asked desk.new ≡ one_more (D.asked desk.old) }
    ensures filed { D.filed desk.new ≡ D.filed desk.old }
    ensures counted { D.faults desk.old ≤ D.faults desk.new }
    ensures failed { IfOk result (λ news. TellsFailure news (D.faults desk.old) (D.faults desk.new)) }
{
    match desk.fetch(alloc, &loc) {
        Ok(got) => {
            let scan = scanned(alloc, &loc, &got)?;
            let got = Noted::Got(got);
            Ok(News::Fetched { loc, got, scan })
        }
        Err(DeskError::Failed) => Ok(News::Fetched {
            loc,
            got: Noted::Failed,
            scan: None,
        }),
        Err(DeskError::Memory) => Err(AllocError),
    }
}

/// What found bytes parse to.
fn scanned(alloc: Global, loc: &Loc, got: &Got) -> Result<Option<Parsed>, AllocError>
    ensures { IfOk result (λ scan. IsScanned loc.now (noteds.Got got.now) scan) }
{
    match got {
        Got::Found(found) => Ok(Some(parsed(alloc, loc, found.bytes.as_slice())?)),
        Got::Absent | Got::Broken(_) => Ok(None),
    }
}

/// What the bytes of a location parse to.
fn parsed(alloc: Global, loc: &Loc, bytes: &[u8]) -> Result<Parsed, AllocError>
    ensures { IfOk result (λ p. IsParse loc.now bytes.now p) }
{
    match parse(alloc, bytes) {
        Ok(expr) => {
            let keys = import_keys(alloc, &expr, Some(loc))?;
            Ok(Parsed::Good { expr, keys })
        }
        Err(fault) => match fault {
            ParseFault::Memory => Err(AllocError),
            _ => Ok(Parsed::Bad(fault)),
        },
    }
}
