//! Stretches of nodes.

use dh_syntax::Many;

/// The stretch of a node, `from` its first token up to, and without, the one behind it, with those of its parts in their order:
/// by the numbers of the tokens, or by offsets in the text.
#[derive(Debug, Drop)]
pub struct Span {
    pub from: u32,
    pub to: u32,
    pub parts: Many<Span>,
}
