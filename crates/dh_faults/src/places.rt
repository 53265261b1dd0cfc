//! The line and the column of a node.

ghost use Rattle.std.specs.Prelude.{◌≡◌, ◌≤◌, length};
ghost use Rattle.dh_places.specs.Spans.{spans_of};
ghost use Rattle.dh_syntax.specs.Limits.{most_bytes};
ghost use Rattle.dh_syntax.specs.Text.Places.{start_of, start_below, line_at, column_at, begins_character};

use dh_places::Span;
use dh_syntax::Many;

/// A place in a text: its line and its column in characters, both from 1.
#[derive(Clone, Copy, Debug, PartialEq, Eq)]
pub struct Position {
    pub line: u32,
    pub column: u32,
}

/// Where the node begins to which a path leads from a node that begins here and has these parts.
fn start_below(here: u32, parts: &[Span], path: &[u32]) -> u32
    ensures { result ≡ start_below here (spans_of parts.now) path.now }
{
    let Some((number, rest)) = path.split_first() else {
        return here;
    };
    match parts.get(*number as usize) {
        Some(part) => start_below(part.from, part.parts.as_slice(), rest),
        None => here,
    }
}

/// Where the node begins to which a path leads from the first of some nodes.
fn start_of(nodes: &[Span], path: &[u32]) -> u32
    ensures { result ≡ start_of (spans_of nodes.now) path.now }
{
    match nodes.first() {
        Some(root) => start_below(root.from, root.parts.as_slice(), path),
        None => 0,
    }
}

/// Whether a byte is the first one of a character.
fn begins_character(byte: u8) -> bool
    ensures { result ≡ begins_character byte }
{
    !(128..192).contains(&byte)
}

/// The line of an offset.
fn line_at(text: &[u8], at: usize) -> u32
    requires short { length text.now ≤ most_bytes }
    ensures { result ≡ line_at text.now at }
{
    let before = &text[..at.min(text.len())];
    1 + before.iter().filter(|byte| **byte == b'\n').count() as u32
}

/// The column of an offset.
fn column_at(text: &[u8], at: usize) -> u32
    requires short { length text.now ≤ most_bytes }
    ensures { result ≡ column_at text.now at }
{
    let before = &text[..at.min(text.len())];
    let line = before.iter().rev().take_while(|byte| **byte != b'\n');
    1 + line.filter(|byte| begins_character(**byte)).count() as u32
}

/// Where the node stands to which a path leads in a text whose nodes stand in these stretches. The way ends early at a node that
/// has no such part: a variable or an import.
pub fn place_of(text: &[u8], nodes: &Many<Span>, path: &[u32]) -> Position
    requires short { length text.now ≤ most_bytes }
    ensures line { result.line ≡ line_at text.now (start_of (spans_of nodes.now) path.now) }
    ensures column { result.column ≡ column_at text.now (start_of (spans_of nodes.now) path.now) }
{
    let at = start_of(nodes.as_slice(), path) as usize;
    Position {
        line: line_at(text, at),
        column: column_at(text, at),
    }
}
