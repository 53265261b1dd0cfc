//! Numbers ("natural-literal" and "integer-literal" of `dhall.abnf`), and the literals that are left out.
ghost use Rattle.std.specs.Prelude.{◌≡◌, ◌^◌, ◌<◌, ◌≤◌, [], ◌∷◌, if◌then◌else◌, length, take, IsTrue, Some, IfSome, option_map};
ghost use Rattle.std.specs.Char.{is_ascii_digit};
ghost use Rattle.std.specs.List.{prefix_len};
ghost use Rattle.std.specs.Str.Parse.{digits_value};
ghost use Rattle.dh_syntax.specs.declared.tokens.TokenKind.TheVariants as kinds;
ghost use Rattle.dh_syntax.specs.Text.Characters.{first, is_sign};
ghost use Rattle.dh_syntax.specs.Text.LexForms.{Is, LeftOut, form, longest};
ghost use Rattle.dh_syntax.specs.Text.LexNumbers.{begins_fraction, begins_exponent, fractional, is_shaped, signed_time, binary, bytes_literal, natural_found, integer_found};
ghost use Rattle.dh_syntax.specs.Text.Numerals.{natural_len, integer_len, is_natural, is_integer, read_natural, read_integer};
ghost use Rattle.dh_tokens.specs.Inside.Numbers.{may_differ, unsigned_left_out, signed_left_out, unsigned_form, signed_form};
ghost use Rattle.dh_tokens.specs.Inside.Forms.{form_of, found_of, IsWithin};

use crate::characters::{after, byte_at};
use crate::classes::{Class, ascii_text, run_len};
use crate::forms::{Form, Found};
use dh_literals::{read_integer, read_natural};
use dh_syntax::TokenKind;

/// How many bytes the longest natural at the front takes, 0 where there is none.
pub fn natural_len(rest: &[u8]) -> usize
    ensures value { result ≡ natural_len rest.now }
    ensures within { result ≤ length rest.now }
{
    if rest.starts_with(b"0x") && byte_at(rest, 2).is_ascii_hexdigit() {
        return 2 + run_len(after(rest, 2), Class::HexDigit);
    }
    if byte_at(rest, 0) == b'0' {
        1
    } else {
        run_len(rest, Class::Digit)
    }
}

/// A sign of an integer.
fn is_sign(b: u8) -> bool
    ensures { result ≡ is_sign b }
{
    b == b'+' || b == b'-'
}

/// How many bytes the longest integer at the front takes, 0 where there is none.
pub fn integer_len(rest: &[u8]) -> usize
    ensures value { result ≡ integer_len rest.now }
    ensures within { result ≤ length rest.now }
{
    if !is_sign(byte_at(rest, 0)) {
        return 0;
    }
    let len = natural_len(after(rest, 1));
    if len == 0 { 0 } else { len + 1 }
}

/// `.` and a digit.
fn begins_fraction(rest: &[u8]) -> bool
    ensures { result ≡ begins_fraction rest.now }
{
    byte_at(rest, 0) == b'.' && byte_at(rest, 1).is_ascii_digit()
}

/// `e` or `E`, possibly a sign, and a digit.
fn begins_exponent(rest: &[u8]) -> bool
    ensures { result ≡ begins_exponent rest.now }
{
    let (e, next) = (byte_at(rest, 0), byte_at(rest, 1));
    (e == b'e' || e == b'E')
        && (next.is_ascii_digit() || (is_sign(next) && byte_at(rest, 2).is_ascii_digit()))
}

/// How many bytes show that a fraction or an exponent follows a number of so many bytes, 0 where none does.
fn fractional_len(len: usize, rest: &[u8]) -> usize
    requires { len ≤ length rest.now }
    ensures value { form LeftOut result ≡ fractional len rest.now }
    ensures within { result ≤ length rest.now }
{
    let next = after(rest, len);
    if len > 0 && (begins_fraction(next) || begins_exponent(next)) {
        len + 2
    } else {
        0
    }
}

/// Whether the bytes begin with this shape, in which 0 stands for any digit.
fn is_shaped(shape: &[u8], rest: &[u8]) -> bool
    ensures { result ≡ is_shaped shape.now rest.now }
{
    if shape.len() > rest.len() {
        return false;
    }
    for (i, c) in shape.iter().enumerate() {
        let fits = if *c == b'0' {
            rest[i].is_ascii_digit()
        } else {
            rest[i] == *c
        };
        if !fits {
            return false;
        }
    }
    true
}

/// How many bytes a shape takes, 0 where the bytes do not begin with it.
fn shaped_len(shape: &[u8], rest: &[u8]) -> usize
    ensures value { result ≡ (if is_shaped shape.now rest.now then length shape.now else 0) }
    ensures within { result ≤ length rest.now }
{
    if is_shaped(shape, rest) {
        shape.len()
    } else {
        0
    }
}

/// How many bytes show a binary literal or one of bytes, 0 where none stands at the front.
fn prefixed_len(rest: &[u8]) -> usize
    ensures value { form LeftOut result ≡ longest (binary rest.now ∷ bytes_literal rest.now ∷ []) }
    ensures within { result ≤ length rest.now }
{
    let is_binary = rest.starts_with(b"0b") && matches!(byte_at(rest, 2), b'0' | b'1');
    if is_binary || rest.starts_with(b"0x\"") {
        3
    } else {
        0
    }
}

/// How many bytes show a literal without sign that is left out, 0 where none stands at the front.
fn unsigned_left_out(rest: &[u8], len: usize) -> usize
    requires { len ≡ natural_len rest.now }
    ensures value { form LeftOut result ≡ unsigned_left_out rest.now }
    ensures within { result ≤ length rest.now }
{
    let date = shaped_len(b"0000-00-00", rest);
    let time = shaped_len(b"00:00", rest);
    fractional_len(len, rest).max(date.max(time.max(prefixed_len(rest))))
}

/// How many bytes show a time with a sign, 0 where none stands at the front.
fn signed_time_len(rest: &[u8]) -> usize
    ensures value { form LeftOut result ≡ signed_time rest.now }
    ensures within { result ≤ length rest.now }
{
    if is_sign(byte_at(rest, 0)) && shaped_len(b"00:00", after(rest, 1)) > 0 {
        6
    } else {
        0
    }
}

/// How many bytes show a literal with its sign that is left out, 0 where none stands at the front.
fn signed_left_out(rest: &[u8], len: usize) -> usize
    requires some { 0 < len }
    requires len { len ≡ integer_len rest.now }
    ensures value { form LeftOut result ≡ signed_left_out rest.now }
    ensures within { result ≤ length rest.now }
{
    fractional_len(len, rest).max(signed_time_len(rest))
}

/// What a natural is.
fn natural_found(digits: &str) -> Found
    requires { IsTrue (is_natural digits.now) }
    ensures { found_of result ≡ natural_found (read_natural digits.now) }
{
    match read_natural(digits) {
        Some(n) => Found::Is(TokenKind::Natural(n)),
        None => Found::TooWide,
    }
}

/// What an integer is.
fn integer_found(text: &str) -> Found
    requires { IsTrue (is_integer text.now) }
    ensures { found_of result ≡ integer_found (read_integer text.now) }
{
    match read_integer(text) {
        Some(z) => Found::Is(TokenKind::Integer(z)),
        None => Found::TooWide,
    }
}

/// The bytes of a natural, as a text.
fn natural_text(rest: &[u8], len: usize) -> &str
    requires some { 0 < len }
    requires len { len ≡ natural_len rest.now }
    ensures value { result.now ≡ take len rest.now }
    ensures natural { IsTrue (is_natural result.now) }
{
    ascii_text(&rest[..len])
}

/// The bytes of an integer, as a text.
fn integer_text(rest: &[u8], len: usize) -> &str
    requires some { 0 < len }
    requires len { len ≡ integer_len rest.now }
    ensures value { result.now ≡ take len rest.now }
    ensures integer { IsTrue (is_integer result.now) }
{
    ascii_text(&rest[..len])
}

/// The longest form without sign at a digit.
pub fn number(rest: &[u8]) -> Form
    requires { IsTrue (is_ascii_digit (first rest.now)) }
    ensures value { Some (form_of result) ≡ unsigned_form rest.now }
    ensures within { IsWithin result (length rest.now) }
{
    let len = natural_len(rest);
    let out = unsigned_left_out(rest, len);
    if len < out {
        return Form {
            found: Found::LeftOut,
            len: out,
        };
    }
    Form {
        found: natural_found(natural_text(rest, len)),
        len,
    }
}

/// The least number at which one more digit may be too much for 64 bits.
const MANY: u64 = 1_844_674_407_370_955_161;

/// How many digits a number of 64 bits has at most. No more are read, so that a run of zeros is not read to its end at each place.
const MOST_DIGITS: usize = 20;

/// The number that the digits at the front write, and how many there are, where it has 64 bits.
fn decimal(rest: &[u8]) -> Option<(u64, usize)>
    ensures len { IfSome result (λ d. d.1 ≡ prefix_len is_ascii_digit rest.now) }
    ensures value { IfSome result (λ d. d.0 ≡ digits_value 10 (take d.1 rest.now)) }
    ensures small { IfSome result (λ d. d.0 < 2 ^ 64) }
{
    let mut value = 0;
    let mut n = 0;
    for b in rest {
        if !b.is_ascii_digit() {
            break;
        }
        if value >= MANY {
            return None;
        }
        if n == MOST_DIGITS {
            return None;
        }
        value = value * 10 + u64::from(*b - b'0');
        n += 1;
    }
    Some((value, n))
}

/// Whether another literal may stand where so many digits do, by a few of the bytes: one that is left out, or `0` alone.
fn may_differ(rest: &[u8], len: usize) -> bool
    ensures { result ≡ may_differ len rest.now }
{
    matches!(byte_at(rest, len), b'.' | b'e' | b'E')
        || matches!(byte_at(rest, 1), b'x' | b'b')
        || byte_at(rest, 2) == b':'
        || byte_at(rest, 4) == b'-'
        || (byte_at(rest, 0) == b'0' && len != 1)
}

/// A natural of 64 bits without its sign, and how many bytes it takes, where it is the longest form at a digit.
pub fn small_natural(rest: &[u8]) -> Option<(u64, usize)>
    requires { IsTrue (is_ascii_digit (first rest.now)) }
    ensures value { IfSome result (λ d. unsigned_form rest.now ≡ form (Is (kinds.Natural d.0)) d.1) }
    ensures within { IfSome result (λ d. (0 < d.1) × (d.1 ≤ length rest.now)) }
{
    let (n, len) = decimal(rest)?;
    if may_differ(rest, len) {
        return None;
    }
    Some((n, len))
}

/// The longest number with a sign at the front.
pub fn signed_number(rest: &[u8]) -> Option<Form>
    ensures value { option_map form_of result ≡ signed_form rest.now }
    ensures within { IfSome result (λ f. IsWithin f (length rest.now)) }
{
    let len = integer_len(rest);
    if len == 0 {
        return None;
    }
    let out = signed_left_out(rest, len);
    if len < out {
        return Some(Form {
            found: Found::LeftOut,
            len: out,
        });
    }
    Some(Form {
        found: integer_found(integer_text(rest, len)),
        len,
    })
}
