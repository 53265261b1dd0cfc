//! The text of a location.

ghost use Rattle.std.specs.Prelude.{◌≡◌, ◌==◌, ◌&&◌, ◌||◌, ◌++◌, IfOk, OnOk, string_bytes};
ghost use Rattle.std.specs.Char.{is_ascii_alphanumeric};
ghost use Rattle.std.specs.List.{list_all};
ghost use Rattle.dh_syntax.specs.declared.locations.Loc.TheVariants.{Env};
ghost use Rattle.dh_syntax.specs.Expressions.Arity.{has_some};
ghost use Rattle.dh_syntax.specs.Imports.Locations as spec;

use dh_syntax::{Comps, Loc, Piece, Url};
use std::alloc::{AllocError, Global};

/// The spelling of a location (`dhall.abnf`, "import-type"). Components and names are quoted only where they must be.
pub fn loc_text(alloc: Global, loc: &Loc) -> Result<Piece, AllocError>
    ensures { IfOk result (λ p. p ≡ spec.loc_text loc.now) }
{
    let mut text = String::new(alloc);
    write_loc(&mut text, loc)?;
    Ok(Piece::of(text))
}

fn write_loc(text: &mut String, loc: &Loc) -> Result<(), AllocError>
    ensures { OnOk result (string_bytes text.new ≡ string_bytes text.old ++ spec.loc_text loc.now) }
{
    match loc {
        Loc::Abs(comps) => write_path(text, "", comps),
        Loc::Here(comps) => write_path(text, ".", comps),
        Loc::Parent(comps) => write_path(text, "..", comps),
        Loc::Home(comps) => write_path(text, "~", comps),
        Loc::Http(url) => write_url(text, "http://", url),
        Loc::Https(url) => write_url(text, "https://", url),
        Loc::Env(name) => write_variable(text, name),
        Loc::Missing => text.push_str("missing"),
    }
}

fn write_path(text: &mut String, root: &str, comps: &Comps) -> Result<(), AllocError>
    ensures { OnOk result (string_bytes text.new ≡ string_bytes text.old ++ (root.now ++ spec.local_text comps.now)) }
{
    text.push_str(root)?;
    write_local(text, comps.as_slice())?;
    Ok(())
}

fn write_local(text: &mut String, comps: &[Piece]) -> Result<(), AllocError>
    ensures { OnOk result (string_bytes text.new ≡ string_bytes text.old ++ spec.local_text comps.now) }
{
    for comp in comps {
        text.push_str("/")?;
        write_component(text, comp)?;
    }
    Ok(())
}

fn write_component(text: &mut String, comp: &Piece) -> Result<(), AllocError>
    ensures { OnOk result (string_bytes text.new ≡ string_bytes text.old ++ spec.local_component comp.now) }
{
    if is_plain_component(comp.as_str().as_bytes()) {
        text.push_str(comp.as_str())?;
    } else {
        write_quoted(text, comp)?;
    }
    Ok(())
}

fn write_quoted(text: &mut String, piece: &Piece) -> Result<(), AllocError>
    ensures { OnOk result (string_bytes text.new ≡ string_bytes text.old ++ spec.quoted piece.now) }
{
    text.push_str("\"")?;
    text.push_str(piece.as_str())?;
    text.push_str("\"")?;
    Ok(())
}

fn write_url(text: &mut String, scheme: &str, url: &Url) -> Result<(), AllocError>
    ensures { OnOk result (string_bytes text.new ≡ string_bytes text.old ++ (scheme.now ++ spec.url_text url.now)) }
{
    text.push_str(scheme)?;
    text.push_str(url.host.as_str())?;
    write_slashed(text, url.comps.as_slice())?;
    write_query(text, &url.query)?;
    Ok(())
}

fn write_slashed(text: &mut String, comps: &[Piece]) -> Result<(), AllocError>
    ensures { OnOk result (string_bytes text.new ≡ string_bytes text.old ++ spec.slashed comps.now) }
{
    for comp in comps {
        text.push_str("/")?;
        text.push_str(comp.as_str())?;
    }
    Ok(())
}

fn write_query(text: &mut String, query: &Option<Piece>) -> Result<(), AllocError>
    ensures { OnOk result (string_bytes text.new ≡ string_bytes text.old ++ spec.query_text query.now) }
{
    match query {
        Some(query) => {
            text.push_str("?")?;
            text.push_str(query.as_str())?;
            Ok(())
        }
        None => Ok(()),
    }
}

fn write_variable(text: &mut String, name: &Piece) -> Result<(), AllocError>
    ensures { OnOk result (string_bytes text.new ≡ string_bytes text.old ++ spec.loc_text (Env name.now)) }
{
    text.push_str("env:")?;
    if is_plain_variable(name.as_str().as_bytes()) {
        text.push_str(name.as_str())?;
    } else {
        write_quoted(text, name)?;
    }
    Ok(())
}

fn is_plain_component(comp: &[u8]) -> bool
    ensures { result ≡ (has_some comp.now && list_all spec.is_path_character comp.now) }
{
    match comp {
        [] => false,
        [_first, ..] => are_path_characters(comp),
    }
}

fn are_path_characters(bytes: &[u8]) -> bool
    ensures { result ≡ list_all spec.is_path_character bytes.now }
{
    bytes.iter().all(|b| is_path_character(*b))
}

fn is_path_character(b: u8) -> bool
    ensures { result ≡ spec.is_path_character b }
{
    matches!(b, b'!' | b'$'..=b'\'' | b'*'..=b'+' | b'-'..=b'.' | b'0'..=b';' | b'=')
        || matches!(b, b'@'..=b'Z' | b'^'..=b'z' | b'|' | b'~')
}

fn is_plain_variable(name: &[u8]) -> bool
    ensures { result ≡ spec.is_plain_variable name.now }
{
    match name {
        [] => false,
        [first, ..] => !first.is_ascii_digit() && are_variable_bytes(name),
    }
}

fn are_variable_bytes(bytes: &[u8]) -> bool
    ensures { result ≡ list_all (λ b. is_ascii_alphanumeric b || b == 95) bytes.now }
{
    bytes.iter().all(|b| is_variable_byte(*b))
}

fn is_variable_byte(b: u8) -> bool
    ensures { result ≡ (is_ascii_alphanumeric b || b == 95) }
{
    b.is_ascii_alphanumeric() || b == b'_'
}
