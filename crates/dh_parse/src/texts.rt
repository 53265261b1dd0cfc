//! From the bytes of a text to the expression that they spell.
#![tactic(none)]

ghost use Rattle.std.specs.Prelude.{◌≡◌, ◌≢◌, ◌<◌, ◌≤◌, ◌^◌, List, Ok, Err, IfOk, IfErr, Result, length};
ghost use Rattle.dh_grammar.specs.Ends.{EndsLast};
ghost use Rattle.dh_grammar.specs.Parsed.{answered, parsed, parsed_lex, parsed_tokens};
ghost use Rattle.dh_grammar.specs.Reading.{accepted};
ghost use Rattle.dh_operands.specs.Operands.{operand_of};
ghost use Rattle.dh_parse.specs.Answers.{Answers};
ghost use Rattle.dh_syntax.specs.declared.faults.ParseFault.TheVariants.{Memory};
ghost use Rattle.dh_syntax.specs.declared.tokens.Token.{Token};
ghost use Rattle.dh_syntax.specs.Expressions.Arity.{IsWellFormed};
ghost use Rattle.dh_syntax.specs.Expressions.Bridge.{term};
ghost use Rattle.dh_syntax.specs.Expressions.Nesting.{nesting};
ghost use Rattle.dh_syntax.specs.Expressions.Spellable.{IsSpellable};
ghost use Rattle.dh_syntax.specs.Limits.{most_bytes};
ghost use Rattle.dh_syntax.specs.Text.Lexing as lexing;
ghost use Rattle.dh_syntax.specs.Text.Lexing.{lex};
ghost use Rattle.dh_syntax.specs.Text.Spelling.{ParsesTo};
ghost use Rattle.dh_tokens.specs.Reading as tokens;

use crate::reading::read;
use dh_operands::{Expressions, Operand};
use dh_syntax::{Expr, MOST_BYTES, MOST_NESTING, ParseFault};
use dh_tokens::{LexFault, Tokens, tokens};
use std::alloc::Global;

/// The expression of an operand, where it does not nest too deep.
fn expression_of(operand: Operand) -> Result<Expr, ParseFault>
    ensures { Answers (answered (accepted (operand_of operand))) result }
{
    if operand.part.nests > MOST_NESTING {
        return Err(ParseFault::TooNested);
    }
    Ok(operand.part.expression)
}

/// The expression that the tokens of a text spell.
fn parse_tokens(alloc: Global, tokens: Tokens) -> Result<Expr, ParseFault>
    requires ends { EndsLast tokens }
    requires few { length tokens < 2 ^ 32 }
    ensures { Answers (parsed_tokens tokens) result }
{
    match read::<Expressions>(alloc, tokens) {
        Ok(operand) => expression_of(operand),
        Err(fault) => Err(fault),
    }
}

/// The fault of a text that has no tokens.
fn lexical_fault(fault: LexFault) -> ParseFault
    ensures { (read : Result (List Token) lexing.LexFault) → tokens.IsFault read fault → Answers (parsed_lex read) (Err result) }
{
    match fault {
        LexFault::Bad(at) => ParseFault::Syntax(at),
        LexFault::Wide(at) => ParseFault::Wide(at),
        LexFault::Out(at) => ParseFault::Out(at),
        LexFault::Memory => ParseFault::Memory,
    }
}

/// The expression that a text spells.
fn parse_text(alloc: Global, text: &str) -> Result<Expr, ParseFault>
    requires { length text.now ≤ most_bytes }
    ensures { Answers (parsed_lex (lex text.now)) result }
{
    match tokens(alloc, text) {
        Ok(tokens) => parse_tokens(alloc, tokens),
        Err(fault) => Err(lexical_fault(fault)),
    }
}

/// What `parsed` says of the bytes.
fn parse_bytes(alloc: Global, bytes: &[u8]) -> Result<Expr, ParseFault>
    ensures { Answers (parsed bytes.now) result }
{
    if bytes.len() > MOST_BYTES {
        return Err(ParseFault::TooLarge);
    }
    match str::from_utf8(bytes) {
        Ok(text) => parse_text(alloc, text),
        Err(fault) => Err(ParseFault::NotUtf8(fault.valid_up_to() as u32)),
    }
}

/// The expression that a text spells, in the whole grammar (`dhall.abnf`), or the text's one fault.
pub fn parse(alloc: Global, bytes: &[u8]) -> Result<Expr, ParseFault>
    ensures spelled { IfOk result (λ e. ParsesTo bytes.now (Ok (term e))) }
    ensures refused { IfErr result (λ f. f ≢ Memory → ParsesTo bytes.now (Err f)) }
    ensures spellable { IfOk result (λ e. IsSpellable (term e)) }
    ensures well_formed { IfOk result (λ e. IsWellFormed (term e)) }
    ensures shallow { IfOk result (λ e. nesting (term e) ≤ 500) }
{
    parse_bytes(alloc, bytes)
}
