//! Components of paths and URLs, each with the slash before it.
ghost use Rattle.std.specs.Prelude.{◌≡◌, ◌<◌, ◌≤◌, length, take, IfOk, IfSome};
ghost use Rattle.std.specs.Str.{IsAscii};
ghost use Rattle.dh_syntax.specs.Text.LexLocations.{begins_percent, components, path_component, plain_component, quoted_component, url_char_len, url_chars_len};
ghost use Rattle.dh_tokens.specs.Inside.Components.{component_in, component_of, components_of, is_url_byte};

use crate::characters::{after, byte_at, up_to};
use crate::classes::{Class, ascii_text, is_segment_byte, run};
use dh_syntax::{Comps, Many, Piece};
use std::alloc::{AllocError, Global};

/// What components belong to.
#[derive(Clone, Copy, Debug)]
pub enum ComponentKind {
    Path,
    Url,
}

/// A component without quotes, and how many bytes it takes.
fn plain_component(rest: &[u8]) -> Option<(&str, usize)>
    ensures value { component_of result ≡ plain_component rest.now }
    ensures within { IfSome result (λ c. c.1 ≤ length rest.now) }
{
    let text = run(rest, Class::Path);
    if text.is_empty() {
        return None;
    }
    Some((text, text.len()))
}

/// A component between quotes, and how many bytes it takes with them.
fn quoted_component(rest: &[u8]) -> Option<(&str, usize)>
    requires { 0 < length rest.now }
    ensures value { component_of result ≡ quoted_component rest.now }
    ensures within { IfSome result (λ c. c.1 ≤ length rest.now) }
{
    let text = run(after(rest, 1), Class::QuotedPath);
    if text.is_empty() || byte_at(rest, 1 + text.len()) != b'"' {
        return None;
    }
    Some((text, 2 + text.len()))
}

/// A component of a path, after its slash.
fn path_component(rest: &[u8]) -> Option<(&str, usize)>
    ensures value { component_of result ≡ path_component rest.now }
    ensures within { IfSome result (λ c. c.1 ≤ length rest.now) }
{
    if byte_at(rest, 0) == b'"' {
        quoted_component(rest)
    } else {
        plain_component(rest)
    }
}

/// A byte that stands for itself in the path of a URL, or in its query.
fn is_url_byte(b: u8, in_query: bool) -> bool
    ensures { result ≡ is_url_byte in_query b }
{
    is_segment_byte(b) || (in_query && (b == b'/' || b == b'?'))
}

/// `%` and two hexadecimal digits.
fn begins_percent(rest: &[u8]) -> bool
    ensures { result ≡ begins_percent rest.now }
{
    byte_at(rest, 0) == b'%'
        && byte_at(rest, 1).is_ascii_hexdigit()
        && byte_at(rest, 2).is_ascii_hexdigit()
}

/// How many bytes the character of a URL at the front takes, 0 where there is none.
fn url_char_len(rest: &[u8], in_query: bool) -> usize
    ensures value { result ≡ url_char_len (is_url_byte in_query) rest.now }
    ensures within { result ≤ length rest.now }
    ensures ascii { IsAscii (take result rest.now) }
{
    if is_url_byte(byte_at(rest, 0), in_query) {
        1
    } else if begins_percent(rest) {
        3
    } else {
        0
    }
}

/// How many bytes such characters take.
fn url_chars_len(rest: &[u8], in_query: bool) -> usize
    ensures value { result ≡ url_chars_len (is_url_byte in_query) 0 rest.now }
    ensures within { result ≤ length rest.now }
    ensures ascii { IsAscii (take result rest.now) }
{
    let mut at = 0;
    while at < rest.len() {
        let len = url_char_len(after(rest, at), in_query);
        if len == 0 {
            break;
        }
        at += len;
    }
    at
}

/// Such characters, as a text.
pub fn url_text(rest: &[u8], in_query: bool) -> &str
    ensures value { result.now ≡ take (url_chars_len (is_url_byte in_query) 0 rest.now) rest.now }
    ensures len { length result.now ≡ url_chars_len (is_url_byte in_query) 0 rest.now }
{
    ascii_text(up_to(rest, url_chars_len(rest, in_query)))
}

/// A component, after its slash, and how many bytes it takes.
fn component(rest: &[u8], kind: ComponentKind) -> Option<(&str, usize)>
    ensures value { component_of result ≡ component_in kind rest.now }
    ensures within { IfSome result (λ c. c.1 ≤ length rest.now) }
{
    match kind {
        ComponentKind::Path => path_component(rest),
        ComponentKind::Url => {
            let text = url_text(rest, false);
            Some((text, text.len()))
        }
    }
}

/// A slash and a component, any number of times, and how many bytes they take.
pub fn components(
    alloc: Global,
    rest: &[u8],
    kind: ComponentKind,
) -> Result<(Comps, usize), AllocError>
    ensures value { IfOk result (λ cs. components_of cs ≡ components (component_in kind) 0 rest.now) }
    ensures within { IfOk result (λ cs. cs.1 ≤ length rest.now) }
{
    let mut texts = Many::new(alloc);
    let mut at = 0;
    'slashes: while byte_at(rest, at) == b'/' {
        let Some((text, len)) = component(after(rest, at + 1), kind) else {
            break;
        };
        texts.push(Piece::new(alloc, text)?)?;
        at += 1 + len;
    }
    Ok((texts, at))
}
