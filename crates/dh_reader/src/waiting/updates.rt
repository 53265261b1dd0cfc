//! Waits of `with`.
ghost use Rattle.std.specs.Prelude.{◌≡◌};
ghost use Rattle.dh_grammar.specs.Machine as machine;
ghost use Rattle.dh_making.specs.Words.{keys_of};
ghost use Rattle.dh_reader.specs.Follows.{Follows};
ghost use Rattle.dh_reader.specs.Inside.Nexts.{next};
ghost use Rattle.dh_reader.specs.Stacks.{stack_of};
ghost use Rattle.dh_reader.specs.declared.tops.Top.TheVariants as tops;

use crate::frames::Open;
use crate::reader::Reader;
use crate::stops::{Stop, refused};
use crate::tops::Wait;
use crate::waiting::tokens::{into_mark, is_found};
use dh_making::{EntryKey, Keys, Makes};
use dh_syntax::{Mark, TokenKind};

/// Behind `whole with`.
pub(crate) fn with_start<M: Makes>(
    reader: &mut Reader<M>,
    whole: M::Tree,
    kind: TokenKind,
) -> Result<(), Stop>
    requires { reader.old.top ≡ tops.Need }
    ensures { Follows M.views (next (M.makes reader.old.at) (machine.with_start (M.views.tree whole)) kind (stack_of M.views reader.old.frames)) reader.new result }
{
    match EntryKey::of_token(kind) {
        Some(key) => {
            let keys = Keys::one(reader.alloc, key);
            reader.enter_wait(Wait::WithKeys(whole, keys))
        }
        None => Err(refused(whole)),
    }
}

/// Behind `whole with keys`.
pub(crate) fn with_keys<M: Makes>(
    reader: &mut Reader<M>,
    whole: M::Tree,
    keys: Keys,
    kind: TokenKind,
) -> Result<(), Stop>
    requires { reader.old.top ≡ tops.Need }
    ensures { Follows M.views (next (M.makes reader.old.at) (machine.with_keys (M.views.tree whole) (keys_of keys)) kind (stack_of M.views reader.old.frames)) reader.new result }
{
    let mark = into_mark(kind);
    if is_found(mark, Mark::Dot) {
        reader.enter_wait(Wait::WithDot(whole, keys))
    } else if is_found(mark, Mark::Equals) {
        reader.enter_open(Open::Update(whole, keys))
    } else {
        Err(refused((whole, keys)))
    }
}

/// Behind `whole with keys.`.
pub(crate) fn with_dot<M: Makes>(
    reader: &mut Reader<M>,
    whole: M::Tree,
    keys: Keys,
    kind: TokenKind,
) -> Result<(), Stop>
    requires { reader.old.top ≡ tops.Need }
    ensures { Follows M.views (next (M.makes reader.old.at) (machine.with_dot (M.views.tree whole) (keys_of keys)) kind (stack_of M.views reader.old.frames)) reader.new result }
{
    let mut keys = keys;
    match EntryKey::of_token(kind) {
        Some(key) => {
            keys.push(key)?;
            reader.enter_wait(Wait::WithKeys(whole, keys))
        }
        None => Err(refused((whole, keys))),
    }
}
