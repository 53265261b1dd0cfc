//! URLs ("http-raw" of `dhall.abnf`).
ghost use Rattle.std.specs.Prelude.{◌≡◌, ◌+◌, ◌≤◌, length, take, Some, IfOk, IfSome, option_map};
ghost use Rattle.std.specs.Str.{IsAscii};
ghost use Rattle.dh_syntax.specs.Text.LexLocations.{after_scheme, domain_len, host_len, label_len, more_labels, one_or_more, port_len, query_len, query_of, url, url_form};
ghost use Rattle.dh_tokens.specs.Inside.Forms.{form_of, IsWithin};
ghost use Rattle.dh_tokens.specs.Inside.Urls.{scheme_len, scheme_loc};

use crate::characters::{after, byte_at, up_to};
use crate::classes::{Class, ascii_text, run_len};
use crate::components::{ComponentKind, components, url_text};
use crate::forms::{Form, Found};
use dh_syntax::{Comps, Loc, Piece, TokenKind, Url};
use std::alloc::{AllocError, Global};

#[derive(Clone, Copy, Debug)]
enum Scheme {
    Http,
    Https,
}

impl Scheme {
    /// How many bytes the scheme takes with `://`.
    fn len(self) -> usize
        ensures { result ≡ scheme_len self }
    {
        match self {
            Scheme::Http => 7,
            Scheme::Https => 8,
        }
    }

    fn loc(self, url: Url) -> Loc
        ensures { result ≡ scheme_loc self url }
    {
        match self {
            Scheme::Http => Loc::Http(url),
            Scheme::Https => Loc::Https(url),
        }
    }
}

/// How many bytes the label of a domain at the front takes, 0 where there is none.
fn label_len(rest: &[u8]) -> usize
    ensures value { result ≡ label_len rest.now }
    ensures within { result ≤ length rest.now }
    ensures ascii { IsAscii (take result rest.now) }
{
    if !byte_at(rest, 0).is_ascii_alphanumeric() {
        return 0;
    }
    let mut len = run_len(rest, Class::Host);
    while len > 0 && rest[len - 1] == b'-' {
        len -= 1;
    }
    len
}

/// How many bytes the further labels of a domain take, each with the dot before it, and a dot after the last.
fn more_labels(rest: &[u8]) -> usize
    ensures value { result ≡ more_labels 0 rest.now }
    ensures within { result ≤ length rest.now }
    ensures ascii { IsAscii (take result rest.now) }
{
    let mut at = 0;
    'dots: while byte_at(rest, at) == b'.' {
        let len = label_len(after(rest, at + 1));
        at += 1 + len;
        if len == 0 {
            break;
        }
    }
    at
}

/// How many bytes the domain at the front takes, 0 where there is none.
fn domain_len(rest: &[u8]) -> usize
    ensures value { result ≡ domain_len rest.now }
    ensures within { result ≤ length rest.now }
    ensures ascii { IsAscii (take result rest.now) }
{
    let len = label_len(rest);
    if len == 0 {
        return 0;
    }
    len + more_labels(after(rest, len))
}

/// How many bytes `:` and a port take, 0 where there is none.
fn port_len(rest: &[u8]) -> usize
    ensures value { result ≡ port_len rest.now }
    ensures within { result ≤ length rest.now }
    ensures ascii { IsAscii (take result rest.now) }
{
    if byte_at(rest, 0) != b':' {
        return 0;
    }
    1 + run_len(after(rest, 1), Class::Digit)
}

/// How many bytes the host at the front takes with its port, 0 where there is none.
fn host_len(rest: &[u8]) -> usize
    ensures value { result ≡ host_len rest.now }
    ensures within { result ≤ length rest.now }
    ensures ascii { IsAscii (take result rest.now) }
{
    let len = domain_len(rest);
    if len == 0 {
        return 0;
    }
    len + port_len(after(rest, len))
}

/// A URL without a path has one empty component.
fn one_or_more(alloc: Global, comps: Comps) -> Result<Comps, AllocError>
    ensures { IfOk result (λ cs. cs ≡ one_or_more comps) }
{
    let mut comps = comps;
    if comps.is_empty() {
        comps.push(Piece::new(alloc, "")?)?;
    }
    Ok(comps)
}

/// What follows `?`, where that stands at the front, and how many bytes both take.
fn query(alloc: Global, rest: &[u8]) -> Result<(Option<Piece>, usize), AllocError>
    ensures value { IfOk result (λ q. q.0 ≡ query_of rest.now) }
    ensures len { IfOk result (λ q. q.1 ≡ query_len (query_of rest.now)) }
    ensures within { IfOk result (λ q. q.1 ≤ length rest.now) }
{
    if byte_at(rest, 0) != b'?' {
        return Ok((None, 0));
    }
    let text = url_text(after(rest, 1), true);
    Ok((Some(Piece::new(alloc, text)?), 1 + text.len()))
}

/// A URL from its host on, which takes so many bytes.
fn url_form(alloc: Global, scheme: Scheme, rest: &[u8], host: usize) -> Result<Form, AllocError>
    requires within { host ≤ length rest.now }
    requires ascii { IsAscii (take host rest.now) }
    ensures value { IfOk result (λ f. Some (form_of f) ≡ url_form (scheme_loc scheme) (scheme_len scheme) host rest.now) }
    ensures within { IfOk result (λ f. IsWithin f (scheme_len scheme + length rest.now)) }
{
    let behind = after(rest, host);
    let (comps, total) = components(alloc, behind, ComponentKind::Url)?;
    let (query, query_len) = query(alloc, after(behind, total))?;
    let host_text = Piece::new(alloc, ascii_text(up_to(rest, host)))?;
    let comps = one_or_more(alloc, comps)?;
    let url = Url {
        host: host_text,
        comps,
        query,
    };
    Ok(Form {
        found: Found::Is(TokenKind::Url(scheme.loc(url))),
        len: scheme.len() + host + total + query_len,
    })
}

/// A URL after its scheme. It is left out where the host begins with `[` or is followed by `@`.
fn after_scheme(alloc: Global, scheme: Scheme, rest: &[u8]) -> Result<Option<Form>, AllocError>
    ensures value { IfOk result (λ f. option_map form_of f ≡ after_scheme (scheme_loc scheme) (scheme_len scheme) rest.now) }
    ensures within { IfOk result (λ f. IfSome f (λ f. IsWithin f (scheme_len scheme + length rest.now))) }
{
    let host = host_len(rest);
    if byte_at(rest, 0) == b'[' {
        return Ok(Some(Form {
            found: Found::LeftOut,
            len: 1 + scheme.len(),
        }));
    }
    if host == 0 {
        return Ok(None);
    }
    if byte_at(rest, host) == b'@' {
        return Ok(Some(Form {
            found: Found::LeftOut,
            len: 1 + scheme.len() + host,
        }));
    }
    Ok(Some(url_form(alloc, scheme, rest, host)?))
}

/// A URL at the front.
pub fn url(alloc: Global, rest: &[u8]) -> Result<Option<Form>, AllocError>
    ensures value { IfOk result (λ f. option_map form_of f ≡ url rest.now) }
    ensures within { IfOk result (λ f. IfSome f (λ f. IsWithin f (length rest.now))) }
{
    if rest.starts_with(b"http://") {
        after_scheme(alloc, Scheme::Http, after(rest, 7))
    } else if rest.starts_with(b"https://") {
        after_scheme(alloc, Scheme::Https, after(rest, 8))
    } else {
        Ok(None)
    }
}
