//! Where a location and a digest are looked for.

ghost use Rattle.std.specs.Prelude.{◌≡◌, ◌++◌, IfOk, OnOk, string_bytes};
ghost use Rattle.dh_syntax.specs.Imports.Locations.{slashed};
ghost use Rattle.dh_desks.specs.Places as spec;

use crate::folders::{Folder, below};
use dh_syntax::{Comps, Digest, Loc, Piece, Url};
use std::alloc::{AllocError, Global};

/// Where a location is looked for.
#[derive(Debug, Drop)]
pub(crate) enum Source {
    /// In the file of this path.
    File(Piece),
    /// In the variable of this name.
    Variable(Piece),
    /// Nowhere, since there is nothing.
    Nowhere,
    /// On the network, where this URL says.
    Web(Url),
    /// On the network, where nothing is fetched.
    Barred,
    /// In a folder whose path cannot be told.
    Untold,
}

/// Writes components, each behind a slash, as the system reads them: without quotes.
fn write_slashed(text: &mut String, comps: &[Piece]) -> Result<(), AllocError>
    ensures { OnOk result (string_bytes text.new ≡ string_bytes text.old ++ slashed comps.now) }
{
    for comp in comps {
        text.push_str("/")?;
        text.push_str(comp.as_str())?;
    }
    Ok(())
}

/// The path that goes from a root along the components.
fn path_from(alloc: Global, root: &str, comps: &Comps) -> Result<Piece, AllocError>
    ensures { IfOk result (λ p. p ≡ root.now ++ slashed comps.now) }
{
    let mut text = String::from_str(alloc, root)?;
    write_slashed(&mut text, comps.as_slice())?;
    Ok(Piece::of(text))
}

fn in_folder(folder: Folder) -> Source
    ensures { result ≡ spec.in_folder folder }
{
    match folder {
        Folder::Unset => Source::Nowhere,
        Folder::At(path) => Source::File(path),
        Folder::Untold => Source::Untold,
    }
}

fn in_home(alloc: Global, home: &Folder, comps: &Comps) -> Result<Source, AllocError>
    ensures { IfOk result (λ p. p ≡ spec.in_folder (spec.below home.now (slashed comps.now))) }
{
    let rest = path_from(alloc, "", comps)?;
    Ok(in_folder(below(alloc, home, rest.as_str())?))
}

/// The place of a location, where `~` stands for this folder.
pub(crate) fn place_of(alloc: Global, home: &Folder, loc: &Loc) -> Result<Source, AllocError>
    ensures { IfOk result (λ p. p ≡ spec.place home.now loc.now) }
{
    match loc {
        Loc::Abs(comps) => Ok(Source::File(path_from(alloc, "", comps)?)),
        Loc::Here(comps) => Ok(Source::File(path_from(alloc, ".", comps)?)),
        Loc::Parent(comps) => Ok(Source::File(path_from(alloc, "..", comps)?)),
        Loc::Home(comps) => in_home(alloc, home, comps),
        Loc::Http(url) => Ok(Source::Web(url.copied(alloc)?)),
        Loc::Https(_) => Ok(Source::Barred),
        Loc::Env(name) => Ok(Source::Variable(name.copied(alloc)?)),
        Loc::Missing => Ok(Source::Nowhere),
    }
}

/// The file of an entry, in the folder of the cache.
pub(crate) fn entry_file(alloc: Global, cache: &Folder, d: &Digest) -> Result<Folder, AllocError>
    ensures { IfOk result (λ f. f ≡ spec.below cache.now (spec.entry_name d.now)) }
{
    let mut name = String::from_str(alloc, "/1220")?;
    name.push_str(hex::encode(alloc, d.0.as_slice())?.as_str())?;
    below(alloc, cache, name.as_str())
}
