//! Imports, by their schemes.
ghost use Rattle.std.specs.Prelude.{◌≡◌, IfOk, option_map};
ghost use Rattle.dh_binary.specs.Machine as machine;
ghost use Rattle.dh_binary.specs.Stubs.{stubs};
ghost use Rattle.dh_syntax.specs.declared.locations.Loc.TheVariants as locs;
ghost use Rattle.dh_decode.specs.Inside.Views.{part_of, digest_of, place_of, start_of};

use crate::nodes::bare;
use crate::parts::Part;
use crate::places::{OpenItem, Start};
use dh_syntax::{BoxedImport, Comps, Digest, Import, Loc, Many, Op, Piece, Url};
use std::alloc::{AllocError, Global};

/// A digest out of its box.
fn unboxed(digest: Option<Box<Digest>>) -> Option<Digest>
    ensures { result ≡ digest_of digest }
{
    match digest {
        Some(digest) => Some(Box::into_inner(digest)),
        None => None,
    }
}

/// An import of a location.
#[inline(never)]
fn import_at(alloc: Global, start: Start, loc: Loc) -> Result<Part, AllocError>
    ensures { IfOk result (λ p. part_of p ≡ machine.import_at stubs (start_of start) loc) }
{
    let Start { digest, mode } = start;
    let digest = unboxed(digest);
    let import = BoxedImport::new(alloc, Import { loc, mode, digest })?;
    bare(alloc, Op::Import(import))
}

/// What comes behind the scheme of a location.
#[inline(never)]
pub fn located<'a>(alloc: Global, start: Start, scheme: u128) -> Result<OpenItem<'a>, AllocError>
    ensures { IfOk result (λ p. place_of p ≡ machine.located stubs (start_of start) scheme) }
{
    match scheme {
        0 => Ok(OpenItem::Headers(start, false)),
        1 => Ok(OpenItem::Headers(start, true)),
        2 => Ok(OpenItem::Components(start, 2, Many::new(alloc))),
        3 => Ok(OpenItem::Components(start, 3, Many::new(alloc))),
        4 => Ok(OpenItem::Components(start, 4, Many::new(alloc))),
        5 => Ok(OpenItem::Components(start, 5, Many::new(alloc))),
        6 => Ok(OpenItem::Environment(start)),
        _ => Ok(OpenItem::Finished(import_at(alloc, start, Loc::Missing)?)),
    }
}

/// An import of a path.
#[inline(never)]
pub fn path_part(alloc: Global, start: Start, scheme: u64, comps: Comps) -> Result<Part, AllocError>
    ensures { IfOk result (λ p. part_of p ≡ machine.import_at stubs (start_of start) (machine.path_location stubs scheme comps)) }
{
    match scheme {
        2 => import_at(alloc, start, Loc::Abs(comps)),
        3 => import_at(alloc, start, Loc::Here(comps)),
        4 => import_at(alloc, start, Loc::Parent(comps)),
        _ => import_at(alloc, start, Loc::Home(comps)),
    }
}

/// An import of a URL.
#[inline(never)]
pub fn url_part(
    alloc: Global,
    start: Start,
    secure: bool,
    host: &str,
    comps: Comps,
    query: Option<&str>,
) -> Result<Part, AllocError>
    ensures { IfOk result (λ p. part_of p ≡ machine.import_at stubs (start_of start) (machine.url_location stubs secure
        (record { host = host.now; comps = comps; query = option_map (λ x. x.now) query.entry }))) }
{
    let host = Piece::new(alloc, host)?;
    let query = match query {
        Some(text) => Some(Piece::new(alloc, text)?),
        None => None,
    };
    let url = Url { host, comps, query };
    if secure {
        import_at(alloc, start, Loc::Https(url))
    } else {
        import_at(alloc, start, Loc::Http(url))
    }
}

/// An import of an environment variable.
#[inline(never)]
pub fn environment_part(alloc: Global, start: Start, name: &str) -> Result<Part, AllocError>
    ensures { IfOk result (λ p. part_of p ≡ machine.import_at stubs (start_of start) (locs.Env name.now)) }
{
    let name = Piece::new(alloc, name)?;
    import_at(alloc, start, Loc::Env(name))
}
