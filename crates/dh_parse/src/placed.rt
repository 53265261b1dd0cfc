//! Expressions with the places in their text of their imports, or of all their nodes.
//!
//! Both parse first, so a text's fault is that of `parse`. The tokens of a text without one are read again for its places,
//! and once more for their offsets: nothing is kept of the tokens while an expression is built.
ghost use Rattle.std.specs.Prelude.{◌≡◌, ◌≢◌, ◌≤◌, Ok, Err, IfOk, IfErr};
ghost use Rattle.dh_parse.specs.Inside.Places.{AreRead, HasNotes, HasOffsets, HasStretches, IsSpelling};
ghost use Rattle.dh_places.specs.Spans.{spans_of};
ghost use Rattle.dh_syntax.specs.declared.faults.ParseFault.TheVariants.{Memory};
ghost use Rattle.dh_syntax.specs.Expressions.Arity.{IsWellFormed};
ghost use Rattle.dh_syntax.specs.Expressions.Bridge.{term};
ghost use Rattle.dh_syntax.specs.Expressions.Nesting.{nesting};
ghost use Rattle.dh_syntax.specs.Expressions.Spellable.{IsSpellable};
ghost use Rattle.dh_syntax.specs.Text.Lexing.{lex};
ghost use Rattle.dh_syntax.specs.Text.Offsets.{SpellsWith};
ghost use Rattle.dh_syntax.specs.Text.Spans.{SpellsAt};
ghost use Rattle.dh_syntax.specs.Text.Spelling.{ParsesTo};

use crate::reading::read;
use crate::texts::parse;
use dh_places::{Locations, Notes, Places, Span, Stretches, in_text, offsets_after};
use dh_syntax::{Expr, Many, ParseFault};
use dh_tokens::{LexFault, Tokens, tokens};
use std::alloc::{AllocError, Global};

/// The tokens of a text that has been parsed.
fn tokens_again(alloc: Global, bytes: &[u8]) -> Result<Tokens, AllocError>
    requires { IsSpelling bytes.now }
    ensures { IfOk result (λ ts. lex bytes.now ≡ Ok ts) }
{
    match str::from_utf8(bytes) {
        Ok(text) => match tokens(alloc, text) {
            Ok(tokens) => Ok(tokens),
            Err(LexFault::Memory) => Err(AllocError),
            Err(LexFault::Bad(_) | LexFault::Wide(_) | LexFault::Out(_)) => unreachable!(),
        },
        Err(_) => unreachable!(),
    }
}

/// What is noted of the nodes that the tokens spell, which have been read before.
fn notes<N: Notes>(alloc: Global, tokens: Tokens) -> Result<N::Row, AllocError>
    requires { AreRead N.noting tokens }
    ensures { IfOk result (λ row. HasNotes N.noting tokens (N.view row)) }
{
    match read::<Places<N>>(alloc, tokens) {
        Ok(placed) => Ok(placed.nodes),
        Err(ParseFault::Memory) => Err(AllocError),
        Err(ParseFault::NotUtf8(_) | ParseFault::Syntax(_) | ParseFault::Wide(_)) => unreachable!(),
        Err(ParseFault::Out(_) | ParseFault::TooLarge | ParseFault::TooNested) => unreachable!(),
    }
}

/// The offsets of the imports of a text that has been parsed.
fn import_offsets(alloc: Global, bytes: &[u8]) -> Result<Vec<u32>, AllocError>
    requires { IsSpelling bytes.now }
    ensures { IfOk result (λ made. HasOffsets bytes.now made.items) }
{
    let row = notes::<Locations>(alloc, tokens_again(alloc, bytes)?)?;
    let tokens = tokens_again(alloc, bytes)?;
    offsets_after(alloc, tokens.as_slice(), row)
}

/// The stretches of the nodes of a text that has been parsed.
fn stretches(alloc: Global, bytes: &[u8]) -> Result<Many<Span>, AllocError>
    requires { IsSpelling bytes.now }
    ensures { IfOk result (λ made. HasStretches bytes.now (spans_of made)) }
{
    let row = notes::<Stretches>(alloc, tokens_again(alloc, bytes)?)?;
    let tokens = tokens_again(alloc, bytes)?;
    in_text(alloc, tokens.as_slice(), row)
}

/// The expression that a text spells, with the offset after the location of each of its imports, in the order of the
/// nodes; or the text's one fault.
pub fn parse_imports(alloc: Global, bytes: &[u8]) -> Result<(Expr, Vec<u32>), ParseFault>
    ensures spelled { IfOk result (λ read. SpellsWith bytes.now (term read.0) read.1.items) }
    ensures refused { IfErr result (λ f. f ≢ Memory → ParsesTo bytes.now (Err f)) }
    ensures spellable { IfOk result (λ read. IsSpellable (term read.0)) }
    ensures well_formed { IfOk result (λ read. IsWellFormed (term read.0)) }
    ensures shallow { IfOk result (λ read. nesting (term read.0) ≤ 500) }
{
    match parse(alloc, bytes) {
        Ok(expression) => match import_offsets(alloc, bytes) {
            Ok(offsets) => Ok((expression, offsets)),
            Err(AllocError) => Err(ParseFault::Memory),
        },
        Err(fault) => Err(fault),
    }
}

/// The expression that a text spells, with the stretch of the text that derives each of its nodes; or the text's one
/// fault.
pub fn parse_spans(alloc: Global, bytes: &[u8]) -> Result<(Expr, Many<Span>), ParseFault>
    ensures spelled { IfOk result (λ read. SpellsAt bytes.now (term read.0) (spans_of read.1)) }
    ensures refused { IfErr result (λ f. f ≢ Memory → ParsesTo bytes.now (Err f)) }
    ensures spellable { IfOk result (λ read. IsSpellable (term read.0)) }
    ensures well_formed { IfOk result (λ read. IsWellFormed (term read.0)) }
    ensures shallow { IfOk result (λ read. nesting (term read.0) ≤ 500) }
{
    match parse(alloc, bytes) {
        Ok(expression) => match stretches(alloc, bytes) {
            Ok(spans) => Ok((expression, spans)),
            Err(AllocError) => Err(ParseFault::Memory),
        },
        Err(fault) => Err(fault),
    }
}
