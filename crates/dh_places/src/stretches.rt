//! Where each node of an expression stands.
ghost use Rattle.std.specs.Prelude.{◌≡◌, IfOk};
ghost use Rattle.dh_places.specs.Spans.{span_of, spans_of};
ghost use Rattle.dh_syntax.specs.Text.Spans.{spans, in_text};

use crate::deques::joined;
use crate::notes::Notes;
use crate::spans::Span;
use crate::tokens::{begin_of, end_before};
use dh_syntax::{Many, Token};
use std::alloc::{AllocError, Global};
use std::collections::VecDeque;

/// Of each node, the numbers of its first token and of the one behind it, and the same of its parts.
#[derive(Drop)]
pub struct Stretches;

impl Notes for Stretches {
    ghost use Rattle.dh_places.specs.Spans.{spans_of};
    ghost use Rattle.dh_syntax.specs.Text.Spans.{stretching};

    type Row = VecDeque<Span>;

    ghost noting = { stretching };

    ghost view = { λ row. spans_of row.items };

    fn none(alloc: Global) -> VecDeque<Span> {
        VecDeque::new(alloc)
    }

    fn joined(left: VecDeque<Span>, right: VecDeque<Span>) -> Result<VecDeque<Span>, AllocError> {
        joined(left, right)
    }

    fn node(
        alloc: Global,
        first: u32,
        last: u32,
        parts: VecDeque<Span>,
    ) -> Result<VecDeque<Span>, AllocError> {
        alone(alloc, first, last, Many::of(parts.into_vec()))
    }

    fn import_node(alloc: Global, first: u32, last: u32) -> Result<VecDeque<Span>, AllocError> {
        alone(alloc, first, last, Many::new(alloc))
    }

    fn parts(alloc: Global, node: VecDeque<Span>) -> VecDeque<Span> {
        let mut spans = node;
        match spans.pop_front() {
            Some(span) => VecDeque::from_vec(span.parts.into_vec()),
            None => VecDeque::new(alloc),
        }
    }
}

/// The stretch of one node alone.
fn alone(alloc: Global, from: u32, to: u32, parts: Many<Span>) -> Result<VecDeque<Span>, AllocError>
    ensures { IfOk result (λ row. spans_of row.items ≡ spans from to (spans_of parts)) }
{
    let mut row = VecDeque::new(alloc);
    row.push_back(Span { from, to, parts })?;
    Ok(row)
}

/// The stretches in the text of nodes whose tokens have these numbers, for the tokens of the text. It goes as deep as the nodes
/// do, as the expression does from which they are.
pub fn in_text(
    alloc: Global,
    tokens: &[Token],
    numbers: VecDeque<Span>,
) -> Result<Many<Span>, AllocError>
    ensures { IfOk result (λ made. spans_of made ≡ in_text tokens.now (spans_of numbers.items)) }
{
    spans_in_text(alloc, tokens, &Many::of(numbers.into_vec()))
}

/// The stretches in the text of some nodes in a row.
#[cycle(spans)]
fn spans_in_text(
    alloc: Global,
    tokens: &[Token],
    numbers: &Many<Span>,
) -> Result<Many<Span>, AllocError>
    ensures { IfOk result (λ made. spans_of made ≡ in_text tokens.now (spans_of numbers.now)) }
{
    let mut done = Many::new(alloc);
    for span in numbers.as_slice() {
        done.push(span_in_text(alloc, tokens, span)?)?;
    }
    Ok(done)
}

/// The stretches in the text of one node and its parts.
#[cycle(spans)]
fn span_in_text(alloc: Global, tokens: &[Token], span: &Span) -> Result<Span, AllocError>
    ensures { IfOk result (λ made. span_of made ≡ in_text tokens.now (span_of span.now)) }
{
    let parts = spans_in_text(alloc, tokens, &span.parts)?;
    Ok(Span {
        from: begin_of(tokens, span.from),
        to: end_before(tokens, span.to),
        parts,
    })
}
