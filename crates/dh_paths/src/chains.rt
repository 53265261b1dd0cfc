//! The location of an import in a text at another location.

ghost use Rattle.std.specs.Prelude.{◌≡◌, ◌++◌, map, IfOk, OnOk};
ghost use Rattle.std.specs.Option.{option_copied};
ghost use Rattle.dh_syntax.specs.Imports.Locations as spec;
ghost use Rattle.dh_paths.specs.Inside.Paths.{route};

use crate::canonical::canon;
use crate::escapes::url_component;
use dh_syntax::{Comps, Loc, Many, Piece, Url};
use std::alloc::{AllocError, Global};

/// The canonical location of a child in a text at this parent ("Import resolution", chaining of imports). With no
/// parent, the text is the input.
pub fn chain(alloc: Global, parent: Option<&Loc>, child: &Loc) -> Result<Loc, AllocError>
    ensures { IfOk result (λ l. l ≡ spec.chain (option_copied parent.entry) child.now) }
{
    let mut loc = match parent {
        Some(parent) => in_text(alloc, parent, child)?,
        None => child.copied(alloc)?,
    };
    canon(&mut loc);
    Ok(loc)
}

// The location, which need not be canonical yet.
fn in_text(alloc: Global, parent: &Loc, child: &Loc) -> Result<Loc, AllocError>
    ensures { IfOk result (λ l. spec.canon l ≡ spec.chain (Some parent.now) child.now) }
{
    match child {
        Loc::Here(comps) => from_parent(alloc, parent, child, false, comps),
        Loc::Parent(comps) => from_parent(alloc, parent, child, true, comps),
        Loc::Abs(_) | Loc::Home(_) => child.copied(alloc),
        Loc::Http(_) | Loc::Https(_) => child.copied(alloc),
        Loc::Env(_) | Loc::Missing => child.copied(alloc),
    }
}

// The location of a relative child. Its route goes through these components, and first up where `up` says so.
fn from_parent(
    alloc: Global,
    parent: &Loc,
    child: &Loc,
    up: bool,
    comps: &Comps,
) -> Result<Loc, AllocError>
    ensures { IfOk result (λ l. spec.canon l ≡ spec.from_parent parent.now child.now (route up comps.now)) }
{
    match parent {
        Loc::Abs(path) => Ok(Loc::Abs(joined(alloc, false, path, up, comps)?)),
        Loc::Here(path) => Ok(Loc::Here(joined(alloc, false, path, up, comps)?)),
        Loc::Parent(path) => Ok(Loc::Here(joined(alloc, true, path, up, comps)?)),
        Loc::Home(path) => Ok(Loc::Home(joined(alloc, false, path, up, comps)?)),
        Loc::Http(url) => Ok(Loc::Http(joined_url(alloc, url, up, comps)?)),
        Loc::Https(url) => Ok(Loc::Https(joined_url(alloc, url, up, comps)?)),
        Loc::Env(_) => child.copied(alloc),
        Loc::Missing => child.copied(alloc),
    }
}

// The path that follows the second route from the folder of the first.
fn joined(
    alloc: Global,
    parent_up: bool,
    parent: &Comps,
    up: bool,
    comps: &Comps,
) -> Result<Comps, AllocError>
    ensures { IfOk result (λ p. p ≡ spec.folder (route parent_up parent.now) ++ route up comps.now) }
{
    let mut path = folder(alloc, parent_up, parent)?;
    push_route(alloc, &mut path, up, comps.as_slice())?;
    Ok(path)
}

// The URL of a relative import in a text from a URL: the child's components alone are escaped, and the query is dropped.
fn joined_url(alloc: Global, url: &Url, up: bool, comps: &Comps) -> Result<Url, AllocError>
    ensures { IfOk result (λ u. spec.canon_url u ≡ spec.joined_url url.now (route up comps.now)) }
{
    let mut path = folder(alloc, false, &url.comps)?;
    if up {
        path.push(Piece::new(alloc, "..")?)?;
    }
    push_escaped(alloc, &mut path, comps.as_slice())?;
    Ok(Url {
        host: url.host.copied(alloc)?,
        comps: path,
        query: None,
    })
}

// A route without its file.
fn folder(alloc: Global, up: bool, comps: &Comps) -> Result<Comps, AllocError>
    ensures { IfOk result (λ p. p ≡ spec.folder (route up comps.now)) }
{
    let mut path = Many::new(alloc);
    match comps.as_slice() {
        [] => Ok(path),
        [front @ .., _file] => {
            push_route(alloc, &mut path, up, front)?;
            Ok(path)
        }
    }
}

fn push_route(alloc: Global, path: &mut Comps, up: bool, comps: &[Piece]) -> Result<(), AllocError>
    ensures { OnOk result (path.new ≡ path.old ++ route up comps.now) }
{
    if up {
        path.push(Piece::new(alloc, "..")?)?;
    }
    push_comps(alloc, path, comps)?;
    Ok(())
}

fn push_comps(alloc: Global, path: &mut Comps, comps: &[Piece]) -> Result<(), AllocError>
    ensures { OnOk result (path.new ≡ path.old ++ comps.now) }
{
    for comp in comps {
        path.push(comp.copied(alloc)?)?;
    }
    Ok(())
}

fn push_escaped(alloc: Global, path: &mut Comps, comps: &[Piece]) -> Result<(), AllocError>
    ensures { OnOk result (path.new ≡ path.old ++ map spec.url_component comps.now) }
{
    for comp in comps {
        path.push(url_component(alloc, comp)?)?;
    }
    Ok(())
}
