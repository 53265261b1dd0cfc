//! Tokens behind an operand.
ghost use Rattle.std.specs.Prelude.{◌≡◌, IfErr, IfNone, IfOk, IfSome, false, true};
ghost use Rattle.dh_grammar.specs.Machine.{argue, close, digest_on, have, index_on, joined, mode_on, ready};
ghost use Rattle.dh_reader.specs.Closings.{closing_kind};
ghost use Rattle.dh_reader.specs.Follows.{Follows};
ghost use Rattle.dh_reader.specs.Inside.Ends.{ends_place};
ghost use Rattle.dh_reader.specs.Inside.Extends.{extends, on_held};
ghost use Rattle.dh_reader.specs.Inside.Tops.{has_operand};
ghost use Rattle.dh_reader.specs.Stacks.{stack_of};
ghost use Rattle.dh_reader.specs.declared.tops.Top.TheVariants as tops;
ghost use Rattle.dh_reader.specs.States.{state_of};
ghost use Rattle.dh_reader.specs.declared.stops.Stop.TheVariants.{Memory};
ghost use Rattle.dh_syntax.specs.declared.tokens.Mark.TheVariants as marks;
ghost use Rattle.dh_syntax.specs.declared.tokens.TokenKind.TheVariants as kinds;

use crate::closing::{Closing, close};
use crate::levels::{ANY, APPLICATION, OPERATOR, SELECTION};
use crate::operands::arguments::argue;
use crate::operands::operators::{annotate, operate, point, renew, select};
use crate::reader::Reader;
use crate::stops::{Stop, refused};
use crate::tops::{Held, Imported, Wait};
use dh_making::Makes;
use dh_syntax::{BinOp, Digest, Keyword, Mark, TokenKind};

/// A token behind an operand.
pub fn extend<M: Makes>(reader: &mut Reader<M>, kind: TokenKind) -> Result<(), Stop>
    requires { has_operand reader.old.top ≡ true }
    ensures { Follows M.views (extends (M.makes reader.old.at) kind (state_of M.views reader.old.frames reader.old.top)) reader.new result }
{
    match kind {
        TokenKind::Mark(mark) => extend_by_mark(reader, mark),
        other => extend_by_kind(reader, other),
    }
}

// What an arm of a `match` needs is made ready at each call of its function, and so is each of its arguments. So the arms
// that do several things are functions of their own, and the arms that few tokens take stand apart.

/// Any token, of which a mark is told apart above.
fn extend_by_kind<M: Makes>(reader: &mut Reader<M>, kind: TokenKind) -> Result<(), Stop>
    requires { has_operand reader.old.top ≡ true }
    ensures { Follows M.views (extends (M.makes reader.old.at) kind (state_of M.views reader.old.frames reader.old.top)) reader.new result }
{
    match kind {
        TokenKind::Mark(mark) => extend_by_mark(reader, mark),
        TokenKind::Keyword(keyword) => extend_by_keyword(reader, keyword),
        TokenKind::Digest(digest) => digest_on(reader, digest),
        TokenKind::InterpolationClose => { end_place(reader, Closing::Interpolation) }
        TokenKind::End => end_place(reader, Closing::End),
        TokenKind::Name(_) | TokenKind::Quoted(_) | TokenKind::Bool(_) | TokenKind::Builtin(_) => {
            apply(reader, kind)
        }
        TokenKind::Natural(_) | TokenKind::Integer(_) | TokenKind::TextOpen(_) => {
            apply(reader, kind)
        }
        TokenKind::TextPiece(_) | TokenKind::TextClose | TokenKind::InterpolationOpen => {
            apply(reader, kind)
        }
        TokenKind::Path(_) | TokenKind::Url(_) | TokenKind::Environment(_) => {
            apply(reader, kind)
        }
    }
}

fn extend_by_mark<M: Makes>(reader: &mut Reader<M>, mark: Mark) -> Result<(), Stop>
    requires { has_operand reader.old.top ≡ true }
    ensures { Follows M.views (extends (M.makes reader.old.at) (kinds.Mark mark) (state_of M.views reader.old.frames reader.old.top)) reader.new result }
{
    match closing_of(mark) {
        Some(closing) => end_place(reader, closing),
        None => extend_by_open_mark(reader, mark),
    }
}

/// The end of a place that the mark is, if it is one.
fn closing_of(mark: Mark) -> Option<Closing>
    ensures some { IfSome result (λ c. closing_kind c ≡ kinds.Mark mark) }
    ensures none { IfNone result (ends_place mark ≡ false) }
{
    match mark {
        Mark::ParenClose => Some(Closing::Paren),
        Mark::BracketClose => Some(Closing::Bracket),
        Mark::BraceClose => Some(Closing::Brace),
        Mark::AngleClose => Some(Closing::Angle),
        Mark::Comma => Some(Closing::Comma),
        Mark::Equals => Some(Closing::Equals),
        Mark::Bar => Some(Closing::Bar),
        Mark::ParenOpen | Mark::BracketOpen | Mark::BraceOpen | Mark::AngleOpen => None,
        Mark::Dot | Mark::Colon | Mark::At | Mark::Arrow => None,
        Mark::Lambda | Mark::Forall | Mark::Operator(_) => None,
    }
}

/// A mark that ends no place.
fn extend_by_open_mark<M: Makes>(reader: &mut Reader<M>, mark: Mark) -> Result<(), Stop>
    requires place { ends_place mark ≡ false }
    requires held { has_operand reader.old.top ≡ true }
    ensures { Follows M.views (extends (M.makes reader.old.at) (kinds.Mark mark) (state_of M.views reader.old.frames reader.old.top)) reader.new result }
{
    match mark {
        Mark::Operator(operator) => operator_on(reader, operator),
        Mark::Dot => dot_on(reader),
        Mark::Arrow => arrow_on(reader),
        Mark::Colon => colon_on(reader),
        Mark::At => index_on(reader),
        Mark::ParenOpen | Mark::BracketOpen | Mark::BraceOpen => {
            apply(reader, TokenKind::Mark(mark))
        }
        Mark::AngleOpen | Mark::Lambda | Mark::Forall => { apply(reader, TokenKind::Mark(mark)) }
        Mark::ParenClose | Mark::BracketClose | Mark::BraceClose => unreachable!(),
        Mark::AngleClose | Mark::Comma | Mark::Equals | Mark::Bar => unreachable!(),
    }
}

fn extend_by_keyword<M: Makes>(reader: &mut Reader<M>, keyword: Keyword) -> Result<(), Stop>
    requires { has_operand reader.old.top ≡ true }
    ensures { Follows M.views (extends (M.makes reader.old.at) (kinds.Keyword keyword) (state_of M.views reader.old.frames reader.old.top)) reader.new result }
{
    match keyword {
        Keyword::As => mode_on(reader),
        Keyword::With => {
            let operand = joined(reader, OPERATOR)?;
            renew(reader, operand)
        }
        Keyword::Then => end_place(reader, Closing::Then),
        Keyword::Else => end_place(reader, Closing::Else),
        Keyword::Let => end_place(reader, Closing::Let),
        Keyword::In => end_place(reader, Closing::In),
        Keyword::If | Keyword::Missing | Keyword::Assert => {
            apply(reader, TokenKind::Keyword(keyword))
        }
        Keyword::Merge | Keyword::Some | Keyword::ToMap => {
            apply(reader, TokenKind::Keyword(keyword))
        }
    }
}

/// The operand, joined with the open frames on top that bind at least as tightly as the level.
fn joined<M: Makes>(reader: &mut Reader<M>, level: u32) -> Result<M::Tree, Stop>
    requires { has_operand reader.old.top ≡ true }
    ensures ok { IfOk result (λ x.
        joined (M.makes reader.old.at) level (state_of M.views reader.old.frames reader.old.top) ≡ have (stack_of M.views reader.new.frames) (ready (M.views.tree x))) }
    ensures err { IfErr result (λ s. s ≡ Memory) }
    ensures at { reader.new.at ≡ reader.old.at }
    ensures left { reader.new.top ≡ tops.Need }
{
    if reader.top.is_ready() {
        let operand = reader.top.take_ready();
        reader.frames.join(reader.alloc, reader.at, level, operand)
    } else {
        let operand = reader.top.take_held().finish(reader.alloc, reader.at)?;
        reader.frames.join(reader.alloc, reader.at, level, operand)
    }
}

/// An operator.
fn operator_on<M: Makes>(reader: &mut Reader<M>, operator: BinOp) -> Result<(), Stop>
    requires { has_operand reader.old.top ≡ true }
    ensures { Follows M.views (extends (M.makes reader.old.at) (kinds.Mark (marks.Operator operator)) (state_of M.views reader.old.frames reader.old.top)) reader.new result }
{
    let operand = joined(reader, operator.left_level())?;
    operate(reader, operator, operand)
}

/// `.`
fn dot_on<M: Makes>(reader: &mut Reader<M>) -> Result<(), Stop>
    requires { has_operand reader.old.top ≡ true }
    ensures { Follows M.views (extends (M.makes reader.old.at) (kinds.Mark marks.Dot) (state_of M.views reader.old.frames reader.old.top)) reader.new result }
{
    let operand = joined(reader, SELECTION)?;
    select(reader, operand)
}

/// `→`
fn arrow_on<M: Makes>(reader: &mut Reader<M>) -> Result<(), Stop>
    requires { has_operand reader.old.top ≡ true }
    ensures { Follows M.views (extends (M.makes reader.old.at) (kinds.Mark marks.Arrow) (state_of M.views reader.old.frames reader.old.top)) reader.new result }
{
    let operand = joined(reader, OPERATOR)?;
    point(reader, operand)
}

/// `:`
fn colon_on<M: Makes>(reader: &mut Reader<M>) -> Result<(), Stop>
    requires { has_operand reader.old.top ≡ true }
    ensures { Follows M.views (extends (M.makes reader.old.at) (kinds.Mark marks.Colon) (state_of M.views reader.old.frames reader.old.top)) reader.new result }
{
    let operand = joined(reader, OPERATOR)?;
    annotate(reader, operand)
}

/// A token that ends the place of a frame.
fn end_place<M: Makes>(reader: &mut Reader<M>, closing: Closing) -> Result<(), Stop>
    requires { has_operand reader.old.top ≡ true }
    ensures { Follows M.views (close (M.makes reader.old.at) (closing_kind closing) (joined (M.makes reader.old.at) 0 (state_of M.views reader.old.frames reader.old.top))) reader.new result }
{
    let operand = joined(reader, ANY)?;
    close(reader, closing, operand)
}

/// The token of an argument.
fn apply<M: Makes>(reader: &mut Reader<M>, kind: TokenKind) -> Result<(), Stop>
    requires { has_operand reader.old.top ≡ true }
    ensures { Follows M.views (argue (M.makes reader.old.at) kind (joined (M.makes reader.old.at) 14 (state_of M.views reader.old.frames reader.old.top))) reader.new result }
{
    let operand = joined(reader, APPLICATION)?;
    argue(reader, kind, operand)
}

/// `@` behind a name.
fn index_on<M: Makes>(reader: &mut Reader<M>) -> Result<(), Stop>
    requires { has_operand reader.old.top ≡ true }
    ensures { Follows M.views (on_held (index_on (M.makes reader.old.at)) (state_of M.views reader.old.frames reader.old.top)) reader.new result }
{
    match reader.top.take_held() {
        Held::Named(word) => reader.enter_wait(Wait::Indexed(word)),
        other => Err(refused(other)),
    }
}

/// A digest behind an import.
fn digest_on<M: Makes>(reader: &mut Reader<M>, digest: Digest) -> Result<(), Stop>
    requires { has_operand reader.old.top ≡ true }
    ensures { Follows M.views (on_held (digest_on (M.makes reader.old.at) digest) (state_of M.views reader.old.frames reader.old.top)) reader.new result }
{
    match reader.top.take_held() {
        Held::Imported(
            Imported {
                source,
                digest: None,
            },
        ) => reader.enter_have(Held::Imported(Imported {
            source,
            digest: Some(digest),
        })),
        other => Err(refused(other)),
    }
}

/// `as` behind an import.
fn mode_on<M: Makes>(reader: &mut Reader<M>) -> Result<(), Stop>
    requires { has_operand reader.old.top ≡ true }
    ensures { Follows M.views (on_held (mode_on (M.makes reader.old.at)) (state_of M.views reader.old.frames reader.old.top)) reader.new result }
{
    match reader.top.take_held() {
        Held::Imported(imported) => reader.enter_wait(Wait::Moded(imported)),
        other => Err(refused(other)),
    }
}
