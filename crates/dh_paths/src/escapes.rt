//! Components of paths as components of URLs.

ghost use Rattle.std.specs.Prelude.{◌≡◌, ◌++◌, IfOk, OnOk, string_bytes};
ghost use Rattle.dh_syntax.specs.Imports.Locations as spec;

use dh_syntax::Piece;
use percent_encoding::{AsciiSet, NON_ALPHANUMERIC, ascii_set, percent_encode};
use std::alloc::{AllocError, Global};

// The ASCII bytes that a component of a URL escapes: all but those of `pchar` (RFC 3986 §3.3), and of these the comma
// and the parentheses.
const ESCAPED: AsciiSet = ascii_set!(
    NON_ALPHANUMERIC
        .remove(b'-')
        .remove(b'.')
        .remove(b'_')
        .remove(b'~')
        .remove(b'!')
        .remove(b'$')
        .remove(b'&')
        .remove(b'\'')
        .remove(b'*')
        .remove(b'+')
        .remove(b';')
        .remove(b'=')
        .remove(b':')
        .remove(b'@')
);

/// A component of a path as a component of a URL. `%` is escaped too.
pub fn url_component(alloc: Global, comp: &Piece) -> Result<Piece, AllocError>
    ensures { IfOk result (λ p. p ≡ spec.url_component comp.now) }
{
    let mut text = String::new(alloc);
    write_component(&mut text, comp.as_str().as_bytes())?;
    Ok(Piece::of(text))
}

fn write_component(text: &mut String, comp: &[u8]) -> Result<(), AllocError>
    ensures { OnOk result (string_bytes text.new ≡ string_bytes text.old ++ spec.url_component comp.now) }
{
    percent_encode(comp, ESCAPED).append_to(text)?;
    Ok(())
}
