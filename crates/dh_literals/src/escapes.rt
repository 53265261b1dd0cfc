//! Escapes of texts between double quotes, read.

ghost use Rattle.std.specs.Prelude.{◌≡◌, ◌<◌, ◌≤◌, take, Ok, IfOk, IfErr};
ghost use Rattle.std.specs.Char.{is_ascii_hexdigit};
ghost use Rattle.std.specs.List.{prefix_len};
ghost use Rattle.std.specs.Str.Parse.{digits_value};
ghost use Rattle.dh_syntax.specs.Text.Literals.{escaped, unicode_escape, unescape};
ghost use Rattle.dh_literals.specs.Escape.{IsFault, IsNamed, IsRead};

use crate::faults::LitFault;
use dh_syntax::Piece;
use std::alloc::Global;

/// A text that stands between double quotes, with its escapes read ("double-quote-chunk" of `dhall.abnf`). `BadEscape`
/// comes exactly at the first backslash that begins no escape.
pub fn unescape(alloc: Global, inner: &str) -> Result<Piece, LitFault>
    ensures ok { IfOk result (λ piece. unescape inner.now ≡ Ok piece) }
    ensures fault { IfErr result (IsFault (unescape inner.now)) }
{
    let mut text = String::new(alloc);
    let mut rest = inner;
    while let Some((plain, escape)) = rest.split_once('\\') {
        text.push_str(plain)?;
        let Some((c, len)) = read_escape(escape) else {
            return Err(LitFault::BadEscape(inner.len() - escape.len() - 1));
        };
        text.push(c)?;
        rest = &escape[len..];
    }
    text.push_str(rest)?;
    Ok(Piece::of(text))
}

/// The character of an escape whose backslash stands before the text, and how many bytes of the text it takes
/// ("double-quote-escaped" of `dhall.abnf`). `None` exactly where it begins no escape.
pub fn read_escape(text: &str) -> Option<(char, usize)>
    ensures { IsRead (escaped text.now) 1 text.now result }
{
    match text.as_bytes().first()? {
        b'"' => Some(('"', 1)),
        b'$' => Some(('$', 1)),
        b'\\' => Some(('\\', 1)),
        b'/' => Some(('/', 1)),
        b'b' => Some(('\u{8}', 1)),
        b'f' => Some(('\u{c}', 1)),
        b'n' => Some(('\n', 1)),
        b'r' => Some(('\r', 1)),
        b't' => Some(('\t', 1)),
        b'u' => {
            let (c, len) = read_unicode_escape(&text[1..])?;
            Some((c, len + 1))
        }
        _ => None,
    }
}

// The character that an escape by number means, of which this text follows `\u`, and how many bytes that takes.
fn read_unicode_escape(text: &str) -> Option<(char, usize)>
    ensures { IsRead (unicode_escape text.now) 2 text.now result }
{
    let Some(braced) = text.strip_prefix('{') else {
        if hexadecimal_len(text) < 4 {
            return None;
        }
        return Some((named(text, 4)?, 4));
    };
    let count = hexadecimal_len(braced);
    if count == 0 || !braced[count..].starts_with('}') {
        return None;
    }
    Some((named(braced, count)?, count + 2))
}

// How many hexadecimal digits the text begins with.
fn hexadecimal_len(text: &str) -> usize
    ensures { result ≡ prefix_len is_ascii_hexdigit text.now }
{
    text.bytes().take_while(|b| b.is_ascii_hexdigit()).count()
}

// The character whose number so many hexadecimal digits at the front write.
fn named(text: &str, count: usize) -> Option<char>
    requires some { 0 < count }
    requires digits { count ≤ prefix_len is_ascii_hexdigit text.now }
    ensures { IsNamed (digits_value 16 (take count text.now)) result }
{
    let code = u32::from_str_radix(&text[..count], 16).ok()?;
    if code % 0x1_0000 >= 0xFFFE {
        return None;
    }
    char::from_u32(code)
}

#[cfg(test)]
mod tests {
    use super::*;
    use std::test::Fail;

    #[test]
    fn reads_escapes(rt: HostRuntime) -> Result<(), Fail> {
        let rows = [
            ("", ""),
            ("plain é😀", "plain é😀"),
            ("\\\"\\$\\\\\\/", "\"$\\/"),
            ("\\b\\f\\n\\r\\t", "\u{8}\u{c}\n\r\t"),
            ("\\u0041\\u00e9\\u20AC", "Aé€"),
            ("\\u{1F600}\\u{41}\\u{0000000000E9}", "😀Aé"),
            ("\\u{10FFFD}\\uD7FF\\uE000", "\u{10FFFD}\u{D7FF}\u{E000}"),
            ("a\\u0000z$", "a\0z$"),
        ];
        for (inner, text) in rows {
            match unescape(rt.alloc(), inner) {
                Ok(piece) => assert_eq!(rt; piece.as_str(), text),
                Err(fault) => assert!(rt; false, "{inner}: {fault:?}"),
            }
        }
        Ok(())
    }

    #[test]
    fn refuses_bad_escapes(rt: HostRuntime) {
        let rows = [
            ("\\q", 0),
            ("a\\", 1),
            ("\\n\\x", 2),
            ("é\\'", 2),
            ("\\\\\\u12", 2),
            ("\\u12g4", 0),
            ("\\u{}", 0),
            ("\\u{41", 0),
            ("\\u{4g}", 0),
            // surrogates
            ("ab\\uD800", 2),
            ("\\u{DFFF}", 0),
            // past the last scalar value
            ("\\u{110000}", 0),
            ("\\u{100000041}", 0),
            // non-characters
            ("\\uFFFE", 0),
            ("\\uFFFF", 0),
            ("\\u{1FFFE}", 0),
            ("\\u{10FFFF}", 0),
        ];
        for (inner, at) in rows {
            match unescape(rt.alloc(), inner) {
                Ok(_) => assert!(rt; false, "{inner} was read"),
                Err(fault) => assert_eq!(rt; fault, LitFault::BadEscape(at), "{inner}"),
            }
        }
    }
}
