//! Marks, with both spellings where there are two.
ghost use Rattle.std.specs.Prelude.{◌≡◌, ℕ, ◌<◌, ◌≤◌, ◌⊎◌, List, ◌∷◌, ◌==◌, length, slice_index, IfSome, map, option_map};
ghost use Rattle.std.specs.Option.{ForSome};
ghost use Rattle.dh_syntax.specs.Text.LexForms.{longest};
ghost use Rattle.dh_syntax.specs.Text.LexMarks.{mark, mark_form, spelled};
ghost use Rattle.dh_tokens.specs.Inside.Forms.{form_of, joined, IsWithin};
ghost use Rattle.dh_tokens.specs.Inside.Marks.{IsAlone, best_of, longest_of, pair_form, spelled_of};

use crate::characters::byte_at;
use crate::forms::{Form, Found};
use dh_syntax::{BinOp, Mark, TokenKind};

/// All marks.
static MARKS: [(&str, Mark); 37] = [
    ("(", Mark::ParenOpen),
    (")", Mark::ParenClose),
    ("[", Mark::BracketOpen),
    ("]", Mark::BracketClose),
    ("{", Mark::BraceOpen),
    ("}", Mark::BraceClose),
    ("<", Mark::AngleOpen),
    (">", Mark::AngleClose),
    (",", Mark::Comma),
    (".", Mark::Dot),
    (":", Mark::Colon),
    ("=", Mark::Equals),
    ("@", Mark::At),
    ("|", Mark::Bar),
    ("\\", Mark::Lambda),
    ("λ", Mark::Lambda),
    ("∀", Mark::Forall),
    ("->", Mark::Arrow),
    ("→", Mark::Arrow),
    ("||", Mark::Operator(BinOp::Or)),
    ("&&", Mark::Operator(BinOp::And)),
    ("==", Mark::Operator(BinOp::Equal)),
    ("!=", Mark::Operator(BinOp::NotEqual)),
    ("+", Mark::Operator(BinOp::Plus)),
    ("*", Mark::Operator(BinOp::Times)),
    ("++", Mark::Operator(BinOp::TextAppend)),
    ("#", Mark::Operator(BinOp::ListAppend)),
    ("?", Mark::Operator(BinOp::Fallback)),
    ("::", Mark::Operator(BinOp::Complete)),
    ("/\\", Mark::Operator(BinOp::Combine)),
    ("∧", Mark::Operator(BinOp::Combine)),
    ("//", Mark::Operator(BinOp::Prefer)),
    ("⫽", Mark::Operator(BinOp::Prefer)),
    ("//\\\\", Mark::Operator(BinOp::CombineTypes)),
    ("⩓", Mark::Operator(BinOp::CombineTypes)),
    ("===", Mark::Operator(BinOp::Equivalent)),
    ("≡", Mark::Operator(BinOp::Equivalent)),
];

/// Those that begin with a slash.
static SLASHES: [(&str, Mark); 3] = [
    ("/\\", Mark::Operator(BinOp::Combine)),
    ("//", Mark::Operator(BinOp::Prefer)),
    ("//\\\\", Mark::Operator(BinOp::CombineTypes)),
];

/// Those whose first byte is 0xe2.
static SYMBOLS: [(&str, Mark); 6] = [
    ("∀", Mark::Forall),
    ("→", Mark::Arrow),
    ("∧", Mark::Operator(BinOp::Combine)),
    ("⫽", Mark::Operator(BinOp::Prefer)),
    ("⩓", Mark::Operator(BinOp::CombineTypes)),
    ("≡", Mark::Operator(BinOp::Equivalent)),
];

/// A mark, where its spelling stands at the front, and how many bytes it takes.
fn mark_at(rest: &[u8], spelling: &str, mark: Mark) -> Option<(Mark, usize)>
    ensures value { best_of result ≡ mark_form rest.now (spelled spelling.now mark) }
    ensures within { IfSome result (λ m. (0 < m.1) × (m.1 ≤ length rest.now)) }
{
    let bytes = spelling.as_bytes();
    if !bytes.is_empty() && rest.starts_with(bytes) {
        Some((mark, bytes.len()))
    } else {
        None
    }
}

/// The longer of two marks, the first one where they are equally long.
fn longer(best: Option<(Mark, usize)>, other: Option<(Mark, usize)>) -> Option<(Mark, usize)>
    requires best { ForSome best (λ m. 0 < m.1) }
    requires other { ForSome other (λ m. 0 < m.1) }
    ensures one { (result ≡ best) ⊎ (result ≡ other) }
    ensures value { best_of result ≡ joined (best_of best) (best_of other) }
{
    match (best, other) {
        (None, _) => other,
        (Some((_, most)), Some((_, len))) if most < len => other,
        (Some(_), _) => best,
    }
}

/// The longest mark at the front by a table of spellings, and how many bytes it takes.
fn longest_in(table: &[(&str, Mark)], rest: &[u8]) -> Option<(Mark, usize)>
    ensures value { best_of result ≡ longest (map (mark_form rest.now) (map spelled_of table.now)) }
    ensures within { IfSome result (λ m. (0 < m.1) × (m.1 ≤ length rest.now)) }
{
    let mut best = None;
    for (spelling, mark) in table {
        best = longer(best, mark_at(rest, spelling, *mark));
    }
    best
}

/// The marks among which the longest one at this first byte is.
fn rows(first: u8) -> &'static [(&'static str, Mark)]
    ensures { (bs : List ℕ) → longest_of (first ∷ bs) result.now ≡ mark (first ∷ bs) }
{
    match first {
        b'/' => &SLASHES,
        0xe2 => &SYMBOLS,
        _ => &MARKS,
    }
}

/// The mark of this byte, where no longer one begins with it.
fn alone(first: u8) -> Option<Mark>
    ensures { IfSome result (λ m. IsAlone m first) }
{
    match first {
        b'(' => Some(Mark::ParenOpen),
        b')' => Some(Mark::ParenClose),
        b'[' => Some(Mark::BracketOpen),
        b']' => Some(Mark::BracketClose),
        b'{' => Some(Mark::BraceOpen),
        b'}' => Some(Mark::BraceClose),
        b'<' => Some(Mark::AngleOpen),
        b'>' => Some(Mark::AngleClose),
        b',' => Some(Mark::Comma),
        b'.' => Some(Mark::Dot),
        b'@' => Some(Mark::At),
        b'\\' => Some(Mark::Lambda),
        b'*' => Some(Mark::Operator(BinOp::Times)),
        b'#' => Some(Mark::Operator(BinOp::ListAppend)),
        b'?' => Some(Mark::Operator(BinOp::Fallback)),
        _ => None,
    }
}

/// The mark of two bytes where this is the second one, and else the mark of the first one, if it is one.
fn pair(rest: &[u8], second: u8, both: Mark, one: Option<Mark>) -> Option<(Mark, usize)>
    requires some { 0 < length rest.now }
    requires second { 0 < second }
    ensures value { best_of result ≡ pair_form (slice_index rest.now 1 == second) both one }
    ensures within { IfSome result (λ m. (0 < m.1) × (m.1 ≤ length rest.now)) }
{
    if byte_at(rest, 1) == second {
        Some((both, 2))
    } else {
        Some((one?, 1))
    }
}

/// `=`, `==` or `===`.
fn equals(rest: &[u8]) -> (Mark, usize)
    requires { slice_index rest.now 0 ≡ 61 }
    ensures value { best_of (Some result) ≡ mark rest.now }
    ensures within { (0 < result.1) × (result.1 ≤ length rest.now) }
{
    if byte_at(rest, 1) != b'=' {
        (Mark::Equals, 1)
    } else if byte_at(rest, 2) != b'=' {
        (Mark::Operator(BinOp::Equal), 2)
    } else {
        (Mark::Operator(BinOp::Equivalent), 3)
    }
}

/// The longest mark at the front, and how many bytes it takes.
pub fn front_mark(rest: &[u8]) -> Option<(Mark, usize)>
    requires some { 0 < length rest.now }
    ensures value { best_of result ≡ mark rest.now }
    ensures within { IfSome result (λ m. (0 < m.1) × (m.1 ≤ length rest.now)) }
{
    let first = byte_at(rest, 0);
    if let Some(mark) = alone(first) {
        return Some((mark, 1));
    }
    match first {
        b':' => pair(
            rest,
            b':',
            Mark::Operator(BinOp::Complete),
            Some(Mark::Colon),
        ),
        b'=' => Some(equals(rest)),
        b'-' => pair(rest, b'>', Mark::Arrow, None),
        b'+' => pair(
            rest,
            b'+',
            Mark::Operator(BinOp::TextAppend),
            Some(Mark::Operator(BinOp::Plus)),
        ),
        b'|' => pair(rest, b'|', Mark::Operator(BinOp::Or), Some(Mark::Bar)),
        b'&' => pair(rest, b'&', Mark::Operator(BinOp::And), None),
        b'!' => pair(rest, b'=', Mark::Operator(BinOp::NotEqual), None),
        0xce => pair(rest, 0xbb, Mark::Lambda, None),
        _ => longest_in(rows(first), rest),
    }
}

/// The longest mark at the front.
pub fn mark(rest: &[u8]) -> Option<Form>
    requires some { 0 < length rest.now }
    ensures value { option_map form_of result ≡ mark rest.now }
    ensures within { IfSome result (λ f. IsWithin f (length rest.now)) }
{
    let (mark, len) = front_mark(rest)?;
    Some(Form {
        found: Found::Is(TokenKind::Mark(mark)),
        len,
    })
}
