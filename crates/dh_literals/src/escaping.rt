//! Texts between double quotes, printed.

ghost use Rattle.std.specs.Prelude.{◌≡◌, ◌≢◌, ◌<◌, ◌++◌, [], ◌∷◌, length, take, slice_index, string_bytes, IfOk, MatchOption, OnOk};
ghost use Rattle.std.specs.Bool.{MatchBool};
ghost use Rattle.dh_syntax.specs.Text.Literals.{escape, escape_byte};

use dh_syntax::Piece;
use std::alloc::{AllocError, Global};

/// A text as it is printed between double quotes.
pub fn escape(alloc: Global, piece: &Piece) -> Result<Piece, AllocError>
    ensures { IfOk result (λ p. p ≡ escape piece.now) }
{
    let mut text = String::new(alloc);
    push_escaped(&mut text, piece)?;
    Ok(Piece::of(text))
}

/// Writes a text as it is printed between double quotes.
pub fn push_escaped(text: &mut String, piece: &Piece) -> Result<(), AllocError>
    ensures { OnOk result (string_bytes text.new ≡ string_bytes text.old ++ escape piece.now) }
{
    push_escaped_str(text, piece.as_str())
}

/// Writes a borrowed text as it is printed between double quotes.
pub fn push_escaped_str(text: &mut String, plain: &str) -> Result<(), AllocError>
    ensures { OnOk result (string_bytes text.new ≡ string_bytes text.old ++ escape plain.now) }
{
    let mut rest = plain;
    while let Some(at) = first_escaped(rest) {
        text.push_str(&rest[..at])?;
        push_escape(text, rest.as_bytes()[at])?;
        rest = &rest[at + 1..];
    }
    text.push_str(rest)
}

/// The place of the first byte that is printed by an escape.
fn first_escaped(text: &str) -> Option<usize>
    ensures { MatchOption result (escape text.now ≡ text.now) (λ i. (i < length text.now) × (escape (take i text.now) ≡ take i text.now) × (escape_byte (slice_index text.now i) ≢ slice_index text.now i ∷ [])) }
{
    text.as_bytes().iter().position(|byte| is_escaped(*byte))
}

fn is_escaped(byte: u8) -> bool
    ensures { MatchBool result (escape_byte byte ≢ byte ∷ []) (escape_byte byte ≡ byte ∷ []) }
{
    byte < b' ' || matches!(byte, b'"' | b'\\' | b'$')
}

fn push_escape(text: &mut String, byte: u8) -> Result<(), AllocError>
    requires { escape_byte byte ≢ byte ∷ [] }
    ensures { OnOk result (string_bytes text.new ≡ string_bytes text.old ++ escape_byte byte) }
{
    match byte {
        b'"' => text.push_str("\\\""),
        b'\\' => text.push_str("\\\\"),
        b'$' => text.push_str("\\$"),
        0x08 => text.push_str("\\b"),
        0x0C => text.push_str("\\f"),
        b'\n' => text.push_str("\\n"),
        b'\r' => text.push_str("\\r"),
        b'\t' => text.push_str("\\t"),
        _ => write!(text, "\\u00{byte:02X}"),
    }
}

#[cfg(test)]
mod tests {
    use super::*;
    use std::test::Fail;

    #[test]
    fn escapes_texts(rt: HostRuntime) -> Result<(), Fail> {
        let rows = [
            ("", ""),
            ("a b/é😀\u{7f}", "a b/é😀\u{7f}"),
            ("\"\\${x}", "\\\"\\\\\\${x}"),
            ("\u{8}\u{c}\n\r\t", "\\b\\f\\n\\r\\t"),
            ("\0\u{b}\u{1f}", "\\u0000\\u000B\\u001F"),
        ];
        for (text, escaped) in rows {
            let piece = Piece::new(rt.alloc(), text)?;
            assert_eq!(rt; escape(rt.alloc(), &piece)?.as_str(), escaped);
        }
        Ok(())
    }
}
