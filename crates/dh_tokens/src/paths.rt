//! Paths ("local" of `dhall.abnf`).
ghost use Rattle.std.specs.Prelude.{◌≡◌, length, IfOk, IfSome, option_map};
ghost use Rattle.dh_syntax.specs.Text.LexLocations.{path};
ghost use Rattle.dh_tokens.specs.Inside.Forms.{form_of, IsWithin};
ghost use Rattle.dh_tokens.specs.Inside.Paths.{path_in, root_len, root_loc};

use crate::characters::{after, byte_at};
use crate::components::{ComponentKind, components};
use crate::forms::{Form, Found};
use dh_syntax::{Comps, Loc, TokenKind};
use std::alloc::{AllocError, Global};

/// What stands before the first slash of a path.
#[derive(Clone, Copy, Debug)]
enum Root {
    Absolute,
    Here,
    Parent,
    Home,
}

impl Root {
    /// The root of a path that may begin here.
    fn at(rest: &[u8]) -> Root
        ensures { path rest.now ≡ path_in result rest.now }
    {
        match byte_at(rest, 0) {
            b'.' if byte_at(rest, 1) == b'.' => Root::Parent,
            b'.' => Root::Here,
            b'~' => Root::Home,
            _ => Root::Absolute,
        }
    }

    fn len(self) -> usize
        ensures { result ≡ root_len self }
    {
        match self {
            Root::Absolute => 0,
            Root::Here | Root::Home => 1,
            Root::Parent => 2,
        }
    }

    fn loc(self, comps: Comps) -> Loc
        ensures { result ≡ root_loc self comps }
    {
        match self {
            Root::Absolute => Loc::Abs(comps),
            Root::Here => Loc::Here(comps),
            Root::Parent => Loc::Parent(comps),
            Root::Home => Loc::Home(comps),
        }
    }
}

/// A path at the front.
pub fn path(alloc: Global, rest: &[u8]) -> Result<Option<Form>, AllocError>
    ensures value { IfOk result (λ f. option_map form_of f ≡ path rest.now) }
    ensures within { IfOk result (λ f. IfSome f (λ f. IsWithin f (length rest.now))) }
{
    let root = Root::at(rest);
    let before = root.len();
    if before > rest.len() {
        return Ok(None);
    }
    let (comps, total) = components(alloc, after(rest, before), ComponentKind::Path)?;
    if total == 0 {
        return Ok(None);
    }
    Ok(Some(Form {
        found: Found::Is(TokenKind::Path(root.loc(comps))),
        len: before + total,
    }))
}
