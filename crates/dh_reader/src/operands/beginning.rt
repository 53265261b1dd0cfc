//! Tokens where an operand or an expression begins.
ghost use Rattle.std.specs.Prelude.{◌≡◌, None};
ghost use Rattle.dh_grammar.specs.Machine.{begin, expression, fits, have, imported, item_comma, named, no_item, opening, quantifier, text_front, wait};
ghost use Rattle.dh_making.specs.Words.{source_of, word_of};
ghost use Rattle.dh_reader.specs.Follows.{Follows};
ghost use Rattle.dh_reader.specs.Stacks.{stack_of};
ghost use Rattle.dh_reader.specs.declared.tops.Top.TheVariants as tops;
ghost use Rattle.dh_syntax.specs.declared.tokens.TokenKind.TheVariants as kinds;

use crate::frames::{Frame, Open, Shut};
use crate::levels::{ANY, APPLICATION, IMPORT};
use crate::reader::Reader;
use crate::stops::{Stop, refused};
use crate::tops::{Front, Held, Imported, Wait};
use dh_making::{Makes, Source, Word};
use dh_syntax::{Builtin, Keyword, Mark, TextForm, TokenKind};

/// A token where an operand or an expression begins.
pub fn begin<M: Makes>(reader: &mut Reader<M>, kind: TokenKind) -> Result<(), Stop>
    requires { reader.old.top ≡ tops.Need }
    ensures { Follows M.views (begin (M.makes reader.old.at) kind (stack_of M.views reader.old.frames)) reader.new result }
{
    match kind {
        TokenKind::Name(label) => begin_name(reader, Word::Plain(label)),
        TokenKind::Quoted(label) => begin_name(reader, Word::Quoted(label)),
        TokenKind::Bool(value) => begin_truth(reader, value),
        TokenKind::Builtin(builtin) => begin_builtin(reader, builtin),
        TokenKind::Natural(n) => begin_natural(reader, n),
        TokenKind::Integer(z) => begin_integer(reader, z),
        TokenKind::TextOpen(form) => begin_text(reader, form),
        TokenKind::Path(location) => begin_import(reader, Source::Path(location)),
        TokenKind::Url(location) => begin_import(reader, Source::Url(location)),
        TokenKind::Environment(name) => begin_import(reader, Source::Environment(name)),
        TokenKind::Keyword(keyword) => begin_keyword(reader, keyword),
        TokenKind::Mark(mark) => begin_mark(reader, mark),
        other => Err(refused(other)),
    }
}

// What an arm of a `match` needs is made ready at each call of its function. So the arms are functions of their own.

fn begin_name<M: Makes>(reader: &mut Reader<M>, word: Word) -> Result<(), Stop>
    requires { reader.old.top ≡ tops.Need }
    ensures { Follows M.views (have (stack_of M.views reader.old.frames) (named (word_of word))) reader.new result }
{
    reader.enter_have(Held::Named(word))
}

fn begin_text<M: Makes>(reader: &mut Reader<M>, form: TextForm) -> Result<(), Stop>
    requires { reader.old.top ≡ tops.Need }
    ensures { Follows M.views (wait (text_front form opening) (stack_of M.views reader.old.frames)) reader.new result }
{
    reader.enter_wait(Wait::TextFront(form, Front::Opening))
}

fn begin_truth<M: Makes>(reader: &mut Reader<M>, value: bool) -> Result<(), Stop>
    requires { reader.old.top ≡ tops.Need }
    ensures { Follows M.views (begin (M.makes reader.old.at) (kinds.Bool value) (stack_of M.views reader.old.frames)) reader.new result }
{
    let made = M::truth(reader.alloc, reader.at, value)?;
    reader.enter_ready(made)
}

fn begin_builtin<M: Makes>(reader: &mut Reader<M>, builtin: Builtin) -> Result<(), Stop>
    requires { reader.old.top ≡ tops.Need }
    ensures { Follows M.views (begin (M.makes reader.old.at) (kinds.Builtin builtin) (stack_of M.views reader.old.frames)) reader.new result }
{
    let made = M::builtin(reader.alloc, reader.at, builtin)?;
    reader.enter_ready(made)
}

fn begin_natural<M: Makes>(reader: &mut Reader<M>, n: u128) -> Result<(), Stop>
    requires { reader.old.top ≡ tops.Need }
    ensures { Follows M.views (begin (M.makes reader.old.at) (kinds.Natural n) (stack_of M.views reader.old.frames)) reader.new result }
{
    let made = M::natural(reader.alloc, reader.at, n)?;
    reader.enter_ready(made)
}

fn begin_integer<M: Makes>(reader: &mut Reader<M>, z: i128) -> Result<(), Stop>
    requires { reader.old.top ≡ tops.Need }
    ensures { Follows M.views (begin (M.makes reader.old.at) (kinds.Integer z) (stack_of M.views reader.old.frames)) reader.new result }
{
    let made = M::integer(reader.alloc, reader.at, z)?;
    reader.enter_ready(made)
}

/// An import.
fn begin_import<M: Makes>(reader: &mut Reader<M>, source: Source) -> Result<(), Stop>
    requires { reader.old.top ≡ tops.Need }
    ensures { Follows M.views (fits 15 (stack_of M.views reader.old.frames) (have (stack_of M.views reader.old.frames) (imported (source_of source) None))) reader.new result }
{
    if reader.frames.least() > IMPORT {
        return Err(Stop::Refused);
    }
    reader.enter_have(Held::Imported(Imported {
        source,
        digest: None,
    }))
}

fn begin_keyword<M: Makes>(reader: &mut Reader<M>, keyword: Keyword) -> Result<(), Stop>
    requires { reader.old.top ≡ tops.Need }
    ensures { Follows M.views (begin (M.makes reader.old.at) (kinds.Keyword keyword) (stack_of M.views reader.old.frames)) reader.new result }
{
    match keyword {
        Keyword::If => {
            if reader.frames.least() > ANY {
                return Err(Stop::Refused);
            }
            reader.enter_shut(Shut::Condition)
        }
        Keyword::Let => {
            if reader.frames.least() > ANY {
                return Err(Stop::Refused);
            }
            reader.enter_wait(Wait::Letting(None))
        }
        Keyword::Assert => {
            if reader.frames.least() > ANY {
                return Err(Stop::Refused);
            }
            reader.enter_wait(Wait::Asserting)
        }
        Keyword::Merge => {
            if reader.frames.least() > APPLICATION {
                return Err(Stop::Refused);
            }
            reader.enter_shut(Shut::First)
        }
        Keyword::Some => {
            if reader.frames.least() > APPLICATION {
                return Err(Stop::Refused);
            }
            reader.enter_open(Open::Somed)
        }
        Keyword::ToMap => {
            if reader.frames.least() > APPLICATION {
                return Err(Stop::Refused);
            }
            reader.enter_open(Open::Mapped)
        }
        Keyword::Missing => begin_import(reader, Source::Missing),
        _ => Err(Stop::Refused),
    }
}

fn begin_mark<M: Makes>(reader: &mut Reader<M>, mark: Mark) -> Result<(), Stop>
    requires { reader.old.top ≡ tops.Need }
    ensures { Follows M.views (begin (M.makes reader.old.at) (kinds.Mark mark) (stack_of M.views reader.old.frames)) reader.new result }
{
    match mark {
        Mark::ParenOpen => reader.enter_shut(Shut::Bracket),
        Mark::BracketOpen => reader.enter_shut(Shut::Items(false, None)),
        Mark::BracketClose => no_item(reader),
        Mark::Comma => item_comma(reader),
        Mark::BraceOpen => reader.enter_wait(Wait::RecordStart(false)),
        Mark::AngleOpen => reader.enter_wait(Wait::UnionStart(false)),
        Mark::Lambda => begin_quantifier(reader, true),
        Mark::Forall => begin_quantifier(reader, false),
        _ => Err(Stop::Refused),
    }
}

/// `λ`, or `∀` where it is no lambda.
fn begin_quantifier<M: Makes>(reader: &mut Reader<M>, is_lambda: bool) -> Result<(), Stop>
    requires { reader.old.top ≡ tops.Need }
    ensures { Follows M.views (expression (stack_of M.views reader.old.frames) (wait (quantifier is_lambda) (stack_of M.views reader.old.frames))) reader.new result }
{
    if reader.frames.least() > ANY {
        return Err(Stop::Refused);
    }
    reader.enter_wait(Wait::Quantifier(is_lambda))
}

/// `]` where an item may stand.
fn no_item<M: Makes>(reader: &mut Reader<M>) -> Result<(), Stop>
    requires { reader.old.top ≡ tops.Need }
    ensures { Follows M.views (no_item (M.makes reader.old.at) (stack_of M.views reader.old.frames)) reader.new result }
{
    match reader.frames.pop() {
        Some(Frame::Shut(Shut::Items(comma, None))) => {
            if reader.frames.least() > ANY {
                return Err(Stop::Refused);
            }
            reader.enter_wait(Wait::Empty(comma))
        }
        Some(Frame::Shut(Shut::Items(comma, Some(items)))) => {
            let made = M::list(reader.alloc, reader.at, comma, items, true)?;
            reader.enter_ready(made)
        }
        other => Err(refused(other)),
    }
}

/// `,` before the first item.
fn item_comma<M: Makes>(reader: &mut Reader<M>) -> Result<(), Stop>
    requires { reader.old.top ≡ tops.Need }
    ensures { Follows M.views (item_comma (M.makes reader.old.at) (stack_of M.views reader.old.frames)) reader.new result }
{
    match reader.frames.pop() {
        Some(Frame::Shut(Shut::Items(false, None))) => reader.enter_shut(Shut::Items(true, None)),
        other => Err(refused(other)),
    }
}
