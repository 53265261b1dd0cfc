//! The loop over the tokens of a text.
ghost use Rattle.std.specs.Prelude.{◌≡◌, ◌<◌, ◌^◌, [], length, not, ◌||◌, OnOk, IfOk, IfErr};
ghost use Rattle.dh_reader.specs.Stacks.{stack_of};
ghost use Rattle.dh_reader.specs.States.{state_of};
ghost use Rattle.dh_grammar.specs.Depths.{Within, opens_many};
ghost use Rattle.dh_grammar.specs.Ends.{EndsLast};
ghost use Rattle.dh_grammar.specs.Machine.{need, gap_at};
ghost use Rattle.dh_grammar.specs.Reading.{accepted, reading_at};
ghost use Rattle.dh_parse.specs.Answers.{IsFault};
ghost use Rattle.dh_parse.specs.Inside.Steps.{Reads, Refuses};
ghost use Rattle.dh_syntax.specs.declared.tokens.TokenKind.TheVariants as kinds;

use dh_making::Makes;
use dh_reader::{Frames, Reader, Stop, Top, gap_at};
use dh_syntax::{MOST_OPEN, Mark, ParseFault, Token, TokenKind};
use dh_tokens::Tokens;
use std::alloc::Global;
use std::mem::drop;

/// Whether the token has the white space before it that it needs.
fn has_gap<M: Makes>(frames: &Frames<M>, place: &Top<M>, kind: &TokenKind, gap: bool) -> bool
    ensures { result ≡ (not (gap_at (state_of M.views frames.now place.now) kind.now) || gap) }
{
    !gap_at(frames, place, kind) || gap
}

/// Whether a mark that begins an operand would open too many expressions. `]` and `,` begin none.
fn mark_opens_many<M: Makes>(frames: &Frames<M>, mark: Mark) -> bool
    ensures { result ≡ opens_many (need (stack_of M.views frames.now)) (kinds.Mark mark) }
{
    match mark {
        Mark::BracketClose | Mark::Comma => false,
        Mark::ParenOpen | Mark::ParenClose | Mark::BracketOpen => frames.depth() > MOST_OPEN,
        Mark::BraceOpen | Mark::BraceClose | Mark::AngleOpen => frames.depth() > MOST_OPEN,
        Mark::AngleClose | Mark::Dot | Mark::Colon | Mark::Equals => frames.depth() > MOST_OPEN,
        Mark::At | Mark::Bar | Mark::Arrow | Mark::Lambda => frames.depth() > MOST_OPEN,
        Mark::Forall | Mark::Operator(_) => frames.depth() > MOST_OPEN,
    }
}

/// Whether a token that begins an operand would open too many expressions.
fn begins_many<M: Makes>(frames: &Frames<M>, kind: &TokenKind) -> bool
    ensures { result ≡ opens_many (need (stack_of M.views frames.now)) kind.now }
{
    match kind {
        TokenKind::Mark(mark) => mark_opens_many(frames, *mark),
        TokenKind::Name(_) | TokenKind::Quoted(_) | TokenKind::Keyword(_) | TokenKind::Bool(_) => {
            frames.depth() > MOST_OPEN
        }
        TokenKind::Builtin(_) | TokenKind::Natural(_) | TokenKind::Integer(_) => {
            frames.depth() > MOST_OPEN
        }
        TokenKind::TextOpen(_) | TokenKind::TextPiece(_) | TokenKind::TextClose => {
            frames.depth() > MOST_OPEN
        }
        TokenKind::InterpolationOpen | TokenKind::InterpolationClose | TokenKind::Path(_) => {
            frames.depth() > MOST_OPEN
        }
        TokenKind::Url(_) | TokenKind::Environment(_) | TokenKind::Digest(_) | TokenKind::End => {
            frames.depth() > MOST_OPEN
        }
    }
}

/// Whether a token would open too many expressions. It is asked only where an operand begins.
fn opens_many<M: Makes>(frames: &Frames<M>, place: &Top<M>, kind: &TokenKind) -> bool
    ensures { result ≡ opens_many (state_of M.views frames.now place.now) kind.now }
{
    match place {
        Top::Need => begins_many(frames, kind),
        Top::Have(_) => false,
        Top::Wait(_) => false,
        Top::Done(_) => false,
    }
}

/// One token read, with the white space that it needs before it.
fn step<M: Makes>(reader: &mut Reader<M>, token: Token) -> Result<(), ParseFault>
    requires { Within (state_of M.views reader.old.frames reader.old.top) }
    ensures read { OnOk result (Reads M.makes reader.old.at (state_of M.views reader.old.frames reader.old.top) token (state_of M.views reader.new.frames reader.new.top)) }
    ensures fault { IfErr result (Refuses M.makes reader.old.at (state_of M.views reader.old.frames reader.old.top) token) }
{
    let Token {
        kind,
        from,
        to: _,
        gap,
    } = token;
    if !has_gap(&reader.frames, &reader.top, &kind, gap) {
        drop(kind);
        return Err(ParseFault::Syntax(from));
    }
    let is_deep = opens_many(&reader.frames, &reader.top, &kind);
    match reader.after(kind) {
        Ok(()) => {
            if is_deep {
                return Err(ParseFault::TooNested);
            }
            Ok(())
        }
        Err(Stop::Refused) => Err(ParseFault::Syntax(from)),
        Err(Stop::Memory) => Err(ParseFault::Memory),
    }
}

/// What the tokens spell: what the builder makes of them.
pub fn read<M: Makes>(alloc: Global, tokens: Tokens) -> Result<M::Tree, ParseFault>
    requires ends { EndsLast tokens }
    requires few { length tokens < 2 ^ 32 }
    ensures ok { IfOk result (λ x. reading_at M.makes 0 (need []) tokens ≡ accepted (M.views.tree x)) }
    ensures fault { IfErr result (IsFault (reading_at M.makes 0 (need []) tokens)) }
{
    let mut reader: Reader<M> = Reader::new(alloc);
    let mut at = 0;
    for token in tokens.into_vec() {
        reader.at = at;
        match step(&mut reader, token) {
            Ok(()) => {}
            Err(fault) => return Err(fault),
        }
        at += 1;
    }
    let Reader {
        alloc: _,
        at: _,
        frames,
        top,
    } = reader;
    drop(frames);
    match top {
        Top::Done(operand) => Ok(operand),
        // The last token was `End`, behind which nothing is awaited.
        Top::Need | Top::Have(_) | Top::Wait(_) => unreachable!(),
    }
}
