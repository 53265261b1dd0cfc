//! Waits of `λ` and `∀`, and of `assert`.
ghost use Rattle.std.specs.Prelude.{◌≡◌};
ghost use Rattle.dh_grammar.specs.Machine as machine;
ghost use Rattle.dh_making.specs.Words.{word_of};
ghost use Rattle.dh_reader.specs.Follows.{Follows};
ghost use Rattle.dh_reader.specs.Inside.Nexts.{next};
ghost use Rattle.dh_reader.specs.Stacks.{stack_of};
ghost use Rattle.dh_reader.specs.declared.tops.Top.TheVariants as tops;

use crate::frames::{Open, Shut};
use crate::reader::Reader;
use crate::stops::{Stop, refused};
use crate::tops::Wait;
use crate::waiting::tokens::{into_mark, is_found};
use dh_making::{Makes, Word};
use dh_syntax::{Mark, TokenKind};

/// Behind `λ`, or `∀`.
pub(crate) fn quantifier<M: Makes>(
    reader: &mut Reader<M>,
    is_lambda: bool,
    kind: TokenKind,
) -> Result<(), Stop>
    requires { reader.old.top ≡ tops.Need }
    ensures { Follows M.views (next (M.makes reader.old.at) (machine.quantifier is_lambda) kind (stack_of M.views reader.old.frames)) reader.new result }
{
    let mark = into_mark(kind);
    if is_found(mark, Mark::ParenOpen) {
        reader.enter_wait(Wait::Quantified(is_lambda))
    } else {
        Err(Stop::Refused)
    }
}

/// Behind `λ(`.
pub(crate) fn quantified<M: Makes>(
    reader: &mut Reader<M>,
    is_lambda: bool,
    kind: TokenKind,
) -> Result<(), Stop>
    requires { reader.old.top ≡ tops.Need }
    ensures { Follows M.views (next (M.makes reader.old.at) (machine.quantified is_lambda) kind (stack_of M.views reader.old.frames)) reader.new result }
{
    match Word::of_token(kind) {
        Some(word) => reader.enter_wait(Wait::Quantity(is_lambda, word)),
        None => Err(Stop::Refused),
    }
}

/// Behind `λ(word`.
pub(crate) fn quantity<M: Makes>(
    reader: &mut Reader<M>,
    is_lambda: bool,
    word: Word,
    kind: TokenKind,
) -> Result<(), Stop>
    requires { reader.old.top ≡ tops.Need }
    ensures { Follows M.views (next (M.makes reader.old.at) (machine.quantity is_lambda (word_of word)) kind (stack_of M.views reader.old.frames)) reader.new result }
{
    let mark = into_mark(kind);
    if is_found(mark, Mark::Colon) {
        reader.enter_shut(Shut::Domain(is_lambda, word))
    } else {
        Err(refused(word))
    }
}

/// Behind `λ(word : domain)`.
pub(crate) fn domained<M: Makes>(
    reader: &mut Reader<M>,
    is_lambda: bool,
    word: Word,
    domain: M::Tree,
    kind: TokenKind,
) -> Result<(), Stop>
    requires { reader.old.top ≡ tops.Need }
    ensures { Follows M.views (next (M.makes reader.old.at) (machine.domained is_lambda (word_of word) (M.views.tree domain)) kind (stack_of M.views reader.old.frames)) reader.new result }
{
    let mark = into_mark(kind);
    if is_found(mark, Mark::Arrow) {
        reader.enter_open(Open::Body(is_lambda, word, domain))
    } else {
        Err(refused((word, domain)))
    }
}

/// Behind `assert`.
pub(crate) fn asserting<M: Makes>(reader: &mut Reader<M>, kind: TokenKind) -> Result<(), Stop>
    requires { reader.old.top ≡ tops.Need }
    ensures { Follows M.views (next (M.makes reader.old.at) machine.asserting kind (stack_of M.views reader.old.frames)) reader.new result }
{
    let mark = into_mark(kind);
    if is_found(mark, Mark::Colon) {
        reader.enter_open(Open::Asserted)
    } else {
        Err(Stop::Refused)
    }
}
