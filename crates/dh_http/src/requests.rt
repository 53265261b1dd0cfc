//! The request of a URL.

ghost use Rattle.std.specs.Prelude.{◌≡◌, [], ◌++◌, codes, IfOk, OnOk, string_bytes};
ghost use Rattle.dh_syntax.specs.Imports.Locations.{slashed, query_text};
ghost use Rattle.dh_http.specs.Requests.{target, ended, request};

use dh_syntax::{Piece, Url};
use std::alloc::{AllocError, Global};

/// The bytes that ask for what a URL names (RFC 9112, section 3).
pub fn request_of(alloc: Global, url: &Url) -> Result<String, AllocError>
    ensures { IfOk result (λ text. string_bytes text ≡ request url.now) }
{
    let mut text = String::new(alloc);
    write_start(&mut text, url)?;
    write_fields(&mut text, url)?;
    Ok(text)
}

fn write_start(text: &mut String, url: &Url) -> Result<(), AllocError>
    ensures { OnOk result (string_bytes text.new ≡ string_bytes text.old ++ ended (codes "GET " ++ target url.now ++ codes " HTTP/1.1")) }
{
    text.push_str("GET ")?;
    write_target(text, url)?;
    text.push_str(" HTTP/1.1\r\n")?;
    Ok(())
}

fn write_fields(text: &mut String, url: &Url) -> Result<(), AllocError>
    ensures { OnOk result (string_bytes text.new ≡ string_bytes text.old
        ++ (ended (codes "Host: " ++ url.now.host) ++ (ended (codes "Connection: close") ++ ended []))) }
{
    text.push_str("Host: ")?;
    text.push_str(url.host.as_str())?;
    text.push_str("\r\n")?;
    text.push_str("Connection: close\r\n\r\n")?;
    Ok(())
}

fn write_target(text: &mut String, url: &Url) -> Result<(), AllocError>
    ensures { OnOk result (string_bytes text.new ≡ string_bytes text.old ++ target url.now) }
{
    write_slashed(text, url.comps.as_slice())?;
    write_query(text, &url.query)?;
    Ok(())
}

fn write_slashed(text: &mut String, comps: &[Piece]) -> Result<(), AllocError>
    ensures { OnOk result (string_bytes text.new ≡ string_bytes text.old ++ slashed comps.now) }
{
    for comp in comps {
        text.push_str("/")?;
        text.push_str(comp.as_str())?;
    }
    Ok(())
}

fn write_query(text: &mut String, query: &Option<Piece>) -> Result<(), AllocError>
    ensures { OnOk result (string_bytes text.new ≡ string_bytes text.old ++ query_text query.now) }
{
    match query {
        Some(query) => {
            text.push_str("?")?;
            text.push_str(query.as_str())?;
            Ok(())
        }
        None => Ok(()),
    }
}
