//! The bytes of a location ("local" of `dhall.abnf`), walked without taking memory.

ghost use Rattle.std.specs.Prelude.{◌≡◌, ◌<◌, ◌≤◌, IfSome, length, drop, slice_index};
ghost use Rattle.std.specs.List.{prefix_len};
ghost use Rattle.dh_syntax.specs.Imports.Locations.{is_path_character};
ghost use Rattle.dh_syntax.specs.Text.Characters.{is_quoted_path_byte};
ghost use Rattle.dh_syntax.specs.Text.LexLocations.{path_component, plain_component, quoted_component};
ghost use Rattle.dh_files.specs.Inside.Walked.{are_components, len_of};

/// A byte of an unquoted path component.
fn is_path_byte(b: u8) -> bool
    ensures { result ≡ is_path_character b }
{
    matches!(b, b'!' | b'$'..=b'\'' | b'*'..=b'+' | b'-'..=b'.' | b'0'..=b';' | b'=' | b'@'..=b'Z' | b'^'..=b'z' | b'|' | b'~')
}

/// A byte of a quoted path component.
fn is_quoted_byte(b: u8) -> bool
    ensures { result ≡ is_quoted_path_byte b }
{
    (0x20..=0x7e).contains(&b) && b != b'"' && b != b'/'
}

/// The byte at an index, 0 where there is none.
fn byte_at(rest: &[u8], at: usize) -> u8
    ensures { result ≡ slice_index rest.now at }
{
    rest.get(at).copied().unwrap_or(0)
}

/// What stands after so many bytes.
fn after(rest: &[u8], n: usize) -> &[u8]
    requires { n ≤ length rest.now }
    ensures { result.now ≡ drop n rest.now }
{
    &rest[n..]
}

/// How many bytes an unquoted component takes, 0 where there is none.
fn plain_len(rest: &[u8]) -> usize
    ensures value { result ≡ prefix_len is_path_character rest.now }
    ensures within { result ≤ length rest.now }
{
    let mut n = 0;
    for b in rest {
        if !is_path_byte(*b) {
            break;
        }
        n += 1;
    }
    n
}

/// How many bytes stand between the quotes of a quoted component.
fn quoted_len(rest: &[u8]) -> usize
    ensures value { result ≡ prefix_len is_quoted_path_byte rest.now }
    ensures within { result ≤ length rest.now }
{
    let mut n = 0;
    for b in rest {
        if !is_quoted_byte(*b) {
            break;
        }
        n += 1;
    }
    n
}

/// How many bytes the unquoted component at the front takes.
fn plain_component(rest: &[u8]) -> Option<usize>
    ensures value { result ≡ len_of (plain_component rest.now) }
    ensures within { IfSome result (λ len. len ≤ length rest.now) }
{
    let len = plain_len(rest);
    if len == 0 {
        return None;
    }
    Some(len)
}

/// How many bytes the quoted component at the front takes, with its quotes.
fn quoted_component(rest: &[u8]) -> Option<usize>
    requires { 0 < length rest.now }
    ensures value { result ≡ len_of (quoted_component rest.now) }
    ensures within { IfSome result (λ len. len ≤ length rest.now) }
{
    let len = quoted_len(after(rest, 1));
    if len == 0 || byte_at(rest, 1 + len) != b'"' {
        return None;
    }
    Some(2 + len)
}

/// How many bytes the component at the front takes.
fn component_len(rest: &[u8]) -> Option<usize>
    ensures value { result ≡ len_of (path_component rest.now) }
    ensures within { IfSome result (λ len. len ≤ length rest.now) }
{
    if byte_at(rest, 0) == b'"' {
        quoted_component(rest)
    } else {
        plain_component(rest)
    }
}

/// Whether these bytes, behind a slash, are components with a slash between any two.
pub(crate) fn are_components(rest: &[u8]) -> bool
    ensures { result ≡ are_components rest.now }
{
    let mut at = 0;
    'components: loop {
        let Some(len) = component_len(after(rest, at)) else {
            return false;
        };
        at += len;
        if at == rest.len() {
            return true;
        }
        if rest[at] != b'/' {
            return false;
        }
        at += 1;
    }
}
