//! Variables and imports.
ghost use Rattle.std.specs.Prelude.{◌≡◌, IfOk};
ghost use Rattle.dh_grammar.specs.Placing.{variable, import_node, import_at};
ghost use Rattle.dh_places.specs.Parts.{placed_of};
ghost use Rattle.dh_syntax.specs.Text.Noting.{digest_len};

use crate::nodes::{after, back, leaf, node};
use crate::notes::Notes;
use crate::parts::Placed;
use dh_syntax::{Digest, Mode};
use std::alloc::{AllocError, Global};

/// A variable. That of a name alone is made when the token behind it is read.
pub fn variable<N: Notes>(
    alloc: Global,
    at: u32,
    index: Option<u32>,
) -> Result<Placed<N::Row>, AllocError>
    ensures { IfOk result (λ x. placed_of N.noting N.view x ≡ variable N.noting at index) }
{
    match index {
        Some(_) => leaf::<N>(alloc, back(2, at), at),
        None => node::<N>(alloc, 17, back(1, at), at, N::none(alloc)),
    }
}

/// An import. That without `as` is made when the token behind it is read.
pub fn import_at<N: Notes>(
    alloc: Global,
    at: u32,
    digest: Option<Digest>,
    mode: Mode,
) -> Result<Placed<N::Row>, AllocError>
    ensures { IfOk result (λ x. placed_of N.noting N.view x ≡ import_at N.noting at digest mode) }
{
    let digest_len = digest_len(&digest);
    match mode {
        Mode::Code => import_node::<N>(alloc, back(1 + digest_len, at), at),
        Mode::Text => import_node::<N>(alloc, back(2 + digest_len, at), after(at)?),
        Mode::Location => import_node::<N>(alloc, back(2 + digest_len, at), after(at)?),
    }
}

/// An import of these tokens.
fn import_node<N: Notes>(alloc: Global, first: u32, last: u32) -> Result<Placed<N::Row>, AllocError>
    ensures { IfOk result (λ x. placed_of N.noting N.view x ≡ import_node N.noting first last) }
{
    Ok(Placed {
        first,
        last,
        nodes: N::import_node(alloc, first, last)?,
        level: 15,
        special: false,
    })
}

/// How many tokens a digest takes, where it is there.
fn digest_len(digest: &Option<Digest>) -> u32
    ensures { result ≡ digest_len digest.now }
{
    match digest {
        Some(_) => 1,
        None => 0,
    }
}
