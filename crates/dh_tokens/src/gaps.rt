//! What stands between tokens ("whitespace-chunk" of `dhall.abnf`), and skipped lines ("shebang").
ghost use Rattle.std.specs.Prelude.{◌≡◌, ◌<◌, ◌≤◌, length, ◌==◌, if◌then◌else◌, IsTrue, MatchResult, Some, IfSome, option_map};
ghost use Rattle.dh_syntax.specs.Text.Characters.{begins, first, tab};
ghost use Rattle.dh_syntax.specs.Text.LexGaps.{white_space, line_comment, block_comment, skipped_line, line_character, comment_part};
ghost use Rattle.dh_syntax.specs.Text.Stretches.{stretch, Faults, itself, good_character};
ghost use Rattle.dh_tokens.specs.Inside.Forms.{form_of, IsWithin};
ghost use Rattle.dh_tokens.specs.Inside.Gaps.{IsForward, extent, part_of};

use crate::characters::{after, byte_at, char_len, is_good, line_end_len};
use crate::forms::{Form, Found};

/// A space, a tab or a line end.
pub fn white_space(rest: &[u8]) -> Option<Form>
    ensures value { option_map form_of result ≡ white_space rest.now }
    ensures within { IfSome result (λ f. IsWithin f (length rest.now)) }
{
    let len = match byte_at(rest, 0) {
        b' ' | b'\t' => 1,
        _ => line_end_len(rest),
    };
    if len == 0 {
        return None;
    }
    Some(Form {
        found: Found::White,
        len,
    })
}

/// Whether the character at the front may stand in a comment.
fn may_stand(rest: &[u8]) -> bool
    ensures { (if result then itself rest.now else Faults)
        ≡ (if first rest.now == tab then itself rest.now else good_character rest.now) }
{
    byte_at(rest, 0) == b'\t' || is_good(rest)
}

/// How many bytes stand before the end of the line, or before what cannot stand there.
fn line_len(rest: &[u8]) -> Result<usize, usize>
    ensures value { result ≡ extent (stretch line_character 0 rest.now) }
    ensures within { MatchResult result (λ n. n ≤ length rest.now) (λ n. n < length rest.now) }
{
    let mut n = 0;
    while n < rest.len() {
        let here = after(rest, n);
        if line_end_len(here) > 0 {
            return Ok(n);
        }
        if !may_stand(here) {
            return Err(n);
        }
        n += char_len(here).min(here.len());
    }
    Ok(n)
}

/// A comment from `--` to the end of its line.
pub fn line_comment(rest: &[u8]) -> Form
    requires { IsTrue (begins "--" rest.now) }
    ensures value { Some (form_of result) ≡ line_comment rest.now }
    ensures within { IsWithin result (length rest.now) }
{
    match line_len(after(rest, 2)) {
        Ok(n) => Form {
            found: Found::White,
            len: n + 2,
        },
        Err(n) => Form {
            found: Found::Faulty(n + 2),
            len: n + 3,
        },
    }
}

/// A line that begins with `#!`, with its end.
pub fn skipped_line(rest: &[u8]) -> Form
    requires { IsTrue (begins "#!" rest.now) }
    ensures value { Some (form_of result) ≡ skipped_line rest.now }
    ensures within { IsWithin result (length rest.now) }
{
    match line_len(after(rest, 2)) {
        Ok(n) => Form {
            found: Found::SkippedLine,
            len: n + 2 + line_end_len(after(rest, n + 2)),
        },
        Err(n) => Form {
            found: Found::Faulty(n + 2),
            len: n + 3 + line_end_len(after(rest, n + 3)),
        },
    }
}

/// What stands at a place of a block comment.
#[derive(Clone, Copy, Debug)]
enum Part {
    Opens,
    Closes,
    /// A character or a line end, of so many bytes.
    Passes(usize),
    /// What cannot stand there.
    Stops,
}

fn comment_part(rest: &[u8]) -> Part
    ensures value { part_of result ≡ comment_part rest.now }
    ensures forward { IsForward result }
{
    let line_end = line_end_len(rest);
    if rest.starts_with(b"{-") {
        return Part::Opens;
    }
    if rest.starts_with(b"-}") {
        return Part::Closes;
    }
    if line_end > 0 {
        return Part::Passes(line_end);
    }
    if may_stand(rest) {
        return Part::Passes(char_len(rest));
    }
    Part::Stops
}

/// A comment from `{-` to its `-}`, with the comments in it.
pub fn block_comment(rest: &[u8]) -> Form
    requires { IsTrue (begins "{-" rest.now) }
    ensures value { Some (form_of result) ≡ block_comment rest.now }
    ensures within { IsWithin result (length rest.now) }
{
    let mut inner = 0usize;
    let mut n = 2;
    while n < rest.len() {
        match comment_part(after(rest, n)) {
            Part::Opens => {
                inner += 1;
                n += 2;
            }
            Part::Closes if inner == 0 => {
                return Form {
                    found: Found::White,
                    len: n + 2,
                };
            }
            Part::Closes => {
                inner -= 1;
                n += 2;
            }
            Part::Passes(len) => n += len.min(rest.len() - n),
            Part::Stops => {
                return Form {
                    found: Found::Faulty(n),
                    len: n + 1,
                };
            }
        }
    }
    Form {
        found: Found::Unclosed,
        len: 2,
    }
}
