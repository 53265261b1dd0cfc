//! Bytes in hexadecimal, and text in which some bytes are written so.

ghost use Rattle.std.specs.Prelude.{◌<◌, IfOk};

use crate::errors::Fault;
use std::alloc::Global;

/// Adds the bytes of pairs of hexadecimal digits, between which blanks may stand.
pub(crate) fn append_hexadecimal(
    alloc: Global,
    bytes: &mut Vec<u8>,
    digits: &str,
) -> Result<(), Fault> {
    for word in digits.split_whitespace() {
        match hex::decode(alloc, word) {
            Ok(decoded) => bytes.extend_from_slice(decoded.as_slice())?,
            Err(_) => return Err(Fault::NotHexadecimal),
        }
    }
    Ok(())
}

/// The digest that 64 hexadecimal digits write.
pub(crate) fn digest_of(digits: &str) -> Result<[u8; 32], Fault> {
    let mut digest = [0; 32];
    match hex::decode_to_slice(digits, &mut digest) {
        Ok(()) => Ok(digest),
        Err(_) => Err(Fault::NotDigest),
    }
}

/// What was read of an escape.
#[derive(Clone, Copy)]
enum Escape {
    /// Nothing.
    Outside,
    /// A backslash.
    Begun,
    /// A backslash and an `x`.
    Hexadecimal,
    /// One of the two digits, too.
    Digit(u8),
}

/// The value of a hexadecimal digit.
fn digit_value(byte: u8) -> Result<u8, Fault>
    ensures { IfOk result (λ value. value < 16) }
{
    match byte {
        b'0'..=b'9' => Ok(byte - b'0'),
        b'a'..=b'f' => Ok(byte - b'a' + 10),
        b'A'..=b'F' => Ok(byte - b'A' + 10),
        _ => Err(Fault::NotEscape),
    }
}

/// Takes the byte behind a backslash.
fn after_backslash(bytes: &mut Vec<u8>, byte: u8) -> Result<Escape, Fault> {
    match byte {
        b'x' => return Ok(Escape::Hexadecimal),
        b'n' => bytes.push(b'\n')?,
        b'\\' => bytes.push(b'\\')?,
        _ => return Err(Fault::NotEscape),
    }
    Ok(Escape::Outside)
}

/// Takes one byte of an escaped text.
fn take(bytes: &mut Vec<u8>, escape: Escape, byte: u8) -> Result<Escape, Fault> {
    match escape {
        Escape::Outside if byte == b'\\' => Ok(Escape::Begun),
        Escape::Outside => {
            bytes.push(byte)?;
            Ok(Escape::Outside)
        }
        Escape::Begun => after_backslash(bytes, byte),
        Escape::Hexadecimal => Ok(Escape::Digit(digit_value(byte)?)),
        Escape::Digit(high) => {
            bytes.push((high << 4) | digit_value(byte)?)?;
            Ok(Escape::Outside)
        }
    }
}

/// Adds the bytes of a text in which `\xHH` is the byte `HH`, `\n` a line feed and `\\` a backslash.
pub(crate) fn append_escaped(bytes: &mut Vec<u8>, text: &str) -> Result<(), Fault> {
    let mut escape = Escape::Outside;
    for byte in text.bytes() {
        escape = take(bytes, escape, byte)?;
    }
    match escape {
        Escape::Outside => Ok(()),
        _ => Err(Fault::NotEscape),
    }
}
