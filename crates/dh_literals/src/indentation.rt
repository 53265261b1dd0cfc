//! The indentation of multi-line texts.

ghost use Rattle.std.specs.Prelude.{◌≡◌, [], ◌∷◌, ◌++◌, map, take, drop, nat_eq, string_bytes, IsTrue, IfOk, OnOk};
ghost use Rattle.std.specs.List.{common_prefix_len, prefix_len, join_with_byte, list_all};
ghost use Rattle.std.specs.Option.{option_copied};
ghost use Rattle.dh_syntax.specs.Text.Characters.{line_feed};
ghost use Rattle.dh_syntax.specs.Text.Literals.{common, lines_of, counted, indentation, indented_by, cut, cut_later, unindent};
ghost use Rattle.dh_literals.specs.Inside.Indentation.{common_with, is_blank, is_blank_before};

use dh_syntax::{Many, Piece, Pieces};
use std::alloc::{AllocError, Global};

/// The pieces between the interpolations of a multi-line text, whose lines end with line feeds, without the
/// indentation that all of its lines share (the standard's "Multi-line literals").
pub fn unindent(alloc: Global, pieces: Pieces) -> Result<Pieces, AllocError>
    ensures { IfOk result (λ made. made ≡ unindent pieces) }
{
    let all = pieces.as_slice();
    let Some((first, later)) = all.split_first() else {
        return Ok(Many::new(alloc));
    };
    let width = indented_by(all);
    let mut made = Many::new(alloc);
    made.push(without_indentation(alloc, first.as_str(), width)?)?;
    for piece in later {
        made.push(without_later_indentation(alloc, piece.as_str(), width)?)?;
    }
    Ok(made)
}

// How many bytes all lines of the text are indented by.
fn indented_by(pieces: &[Piece]) -> usize
    ensures { result ≡ indented_by pieces.now }
{
    let Some((first, later)) = pieces.split_first() else {
        return 0;
    };
    let mut shared = shared_by(None, first.as_str());
    for piece in later {
        shared = shared_by_later(shared, piece.as_str());
    }
    shared.len()
}

// The indentation that is shared by this one and by the lines of a piece that stands after an interpolation. The
// first of them begins before the piece.
fn shared_by_later<'a>(so_far: &'a [u8], piece: &'a str) -> &'a [u8]
    ensures { result.now
        ≡ common (so_far.now ∷ map indentation (counted (drop 1 (lines_of piece.now)))) }
{
    match piece.split_once('\n') {
        Some((_, lines)) => shared_by(Some(so_far), lines),
        None => so_far,
    }
}

// The indentation that is shared by this one, if there is one, and by these lines.
fn shared_by<'a>(so_far: Option<&'a [u8]>, lines: &'a str) -> &'a [u8]
    ensures { result.now
        ≡ common_with (option_copied so_far.entry) (map indentation (counted (lines_of lines.now))) }
{
    let mut shared = so_far;
    let mut rest = lines;
    while let Some((line, more)) = rest.split_once('\n') {
        if !line.is_empty() {
            shared = Some(shared_with(shared, line));
        }
        rest = more;
    }
    shared_with(shared, rest)
}

fn shared_with<'a>(so_far: Option<&'a [u8]>, line: &'a str) -> &'a [u8]
    ensures { result.now ≡ common_with (option_copied so_far.entry) (indentation line.now ∷ []) }
{
    let blanks = indentation(line);
    match so_far {
        None => blanks,
        Some(shared) => common_prefix(shared, blanks),
    }
}

// The spaces and tabs at the start of a line.
fn indentation(line: &str) -> &[u8]
    ensures { result.now ≡ indentation line.now }
{
    &line.as_bytes()[..blank_count(line)]
}

fn blank_count(line: &str) -> usize
    ensures { result ≡ prefix_len is_blank line.now }
{
    line.bytes()
        .take_while(|b| *b == b' ' || *b == b'\t')
        .count()
}

fn common_prefix<'a>(a: &'a [u8], b: &[u8]) -> &'a [u8]
    ensures { result.now ≡ take (common_prefix_len nat_eq a.now b.now) a.now }
{
    &a[..common_count(a, b)]
}

fn common_count(a: &[u8], b: &[u8]) -> usize
    ensures { result ≡ common_prefix_len nat_eq a.now b.now }
{
    let most = a.len().min(b.len());
    for i in 0..most {
        if a[i] != b[i] {
            return i;
        }
    }
    most
}

// A piece whose lines are without so many bytes at their start.
fn without_indentation(alloc: Global, piece: &str, width: usize) -> Result<Piece, AllocError>
    requires { IsTrue (list_all (is_blank_before width) (lines_of piece.now)) }
    ensures { IfOk result (λ p. p ≡ join_with_byte line_feed (cut width (lines_of piece.now))) }
{
    let mut text = String::new(alloc);
    push_cut(&mut text, piece, width)?;
    Ok(Piece::of(text))
}

// A piece whose lines but the first are without so many bytes at their start.
fn without_later_indentation(alloc: Global, piece: &str, width: usize) -> Result<Piece, AllocError>
    requires { IsTrue (list_all (is_blank_before width) (drop 1 (lines_of piece.now))) }
    ensures { IfOk result
        (λ p. p ≡ join_with_byte line_feed (cut_later width (lines_of piece.now))) }
{
    let Some((line, lines)) = piece.split_once('\n') else {
        return Piece::new(alloc, piece);
    };
    let mut text = String::from_str(alloc, line)?;
    text.push('\n')?;
    push_cut(&mut text, lines, width)?;
    Ok(Piece::of(text))
}

fn push_cut(text: &mut String, lines: &str, width: usize) -> Result<(), AllocError>
    requires { IsTrue (list_all (is_blank_before width) (lines_of lines.now)) }
    ensures { OnOk result (string_bytes text.new
        ≡ string_bytes text.old ++ join_with_byte line_feed (cut width (lines_of lines.now))) }
{
    let mut rest = lines;
    while let Some((line, more)) = rest.split_once('\n') {
        text.push_str(cut_line(line, width))?;
        text.push('\n')?;
        rest = more;
    }
    text.push_str(cut_line(rest, width))
}

fn cut_line(line: &str, width: usize) -> &str
    requires { IsTrue (is_blank_before width line.now) }
    ensures { result.now ≡ drop width line.now }
{
    &line[width.min(line.len())..]
}

#[cfg(test)]
mod tests {
    use super::*;
    use std::test::Fail;

    fn pieces(alloc: Global, texts: &[&str]) -> Result<Pieces, AllocError> {
        let mut made = Many::new(alloc);
        for text in texts {
            made.push(Piece::new(alloc, text)?)?;
        }
        Ok(made)
    }

    #[test]
    fn removes_shared_indentation(rt: HostRuntime) -> Result<(), Fail> {
        let rows: [(&[&str], &[&str]); 13] = [
            (&[], &[]),
            (&[""], &[""]),
            (&["  a\n    b\n  "], &["a\n  b\n"]),
            // the last line counts, here with no blanks
            (&["  a\n    b\n"], &["  a\n    b\n"]),
            // the empty line does not count, the line of one space does
            (&["  a\n\n  b\n  "], &["a\n\nb\n"]),
            (&["  a\n \n  b\n  "], &[" a\n\n b\n "]),
            // a tab is no space
            (&["\t a\n\t b\n\t "], &["a\nb\n"]),
            (&["\t a\n \tb\n\t"], &["\t a\n \tb\n\t"]),
            // an interpolation ends the blanks, and what follows it begins no line
            (&["  a\n  ", "  b\n   c ", " d"], &["a\n", "  b\n c ", " d"]),
            (&["", "\n  a\n  "], &["", "\n  a\n  "]),
            (&["  a\n   ", ""], &["a\n ", ""]),
            (&[" é a "], &["é a "]),
            // line ends are line feeds: a carriage return is a byte of its line
            (&["  a\r\n  "], &["a\r\n"]),
        ];
        for (before, after) in rows {
            let made = unindent(rt.alloc(), pieces(rt.alloc(), before)?)?;
            assert_eq!(rt; made.len(), after.len());
            for (piece, text) in made.as_slice().iter().zip(after) {
                assert_eq!(rt; piece.as_str(), *text);
            }
        }
        Ok(())
    }
}
