//! Waits of `let`.
ghost use Rattle.std.specs.Prelude.{◌≡◌, option_map};
ghost use Rattle.dh_grammar.specs.Machine as machine;
ghost use Rattle.dh_making.specs.Words.{word_of};
ghost use Rattle.dh_reader.specs.Follows.{Follows};
ghost use Rattle.dh_reader.specs.Inside.Nexts.{next};
ghost use Rattle.dh_reader.specs.Stacks.{stack_of};
ghost use Rattle.dh_reader.specs.declared.tops.Top.TheVariants as tops;

use crate::frames::Shut;
use crate::reader::Reader;
use crate::stops::{Stop, refused};
use crate::tops::Wait;
use crate::waiting::tokens::{into_mark, is_found};
use dh_making::{Makes, Word};
use dh_syntax::{Mark, TokenKind};

/// Behind the bindings so far and `let`.
pub(crate) fn letting<M: Makes>(
    reader: &mut Reader<M>,
    lets: Option<M::Lets>,
    kind: TokenKind,
) -> Result<(), Stop>
    requires { reader.old.top ≡ tops.Need }
    ensures { Follows M.views (next (M.makes reader.old.at) (machine.letting (option_map M.views.lets lets)) kind (stack_of M.views reader.old.frames)) reader.new result }
{
    match Word::of_token(kind) {
        Some(word) => reader.enter_wait(Wait::Lettered(lets, word)),
        None => Err(refused(lets)),
    }
}

/// Behind the bindings so far and `let word`.
pub(crate) fn lettered<M: Makes>(
    reader: &mut Reader<M>,
    lets: Option<M::Lets>,
    word: Word,
    kind: TokenKind,
) -> Result<(), Stop>
    requires { reader.old.top ≡ tops.Need }
    ensures { Follows M.views (next (M.makes reader.old.at) (machine.lettered (option_map M.views.lets lets) (word_of word)) kind (stack_of M.views reader.old.frames)) reader.new result }
{
    let mark = into_mark(kind);
    if is_found(mark, Mark::Colon) {
        reader.enter_shut(Shut::LetType(lets, word))
    } else if is_found(mark, Mark::Equals) {
        reader.enter_shut(Shut::LetValue(lets, word, M::untyped(reader.at)))
    } else {
        Err(refused((lets, word)))
    }
}
