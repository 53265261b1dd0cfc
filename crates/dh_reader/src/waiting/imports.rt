//! Waits behind a name or an import.
ghost use Rattle.std.specs.Prelude.{◌≡◌};
ghost use Rattle.dh_grammar.specs.Machine as machine;
ghost use Rattle.dh_making.specs.Words.{source_of, word_of};
ghost use Rattle.dh_reader.specs.Follows.{Follows};
ghost use Rattle.dh_reader.specs.Inside.Nexts.{next};
ghost use Rattle.dh_reader.specs.Stacks.{stack_of};
ghost use Rattle.dh_reader.specs.declared.tops.Top.TheVariants as tops;

use crate::reader::Reader;
use crate::stops::Stop;
use crate::tops::Imported;
use crate::waiting::tokens::{mode_of, natural_of};
use dh_making::{Makes, Word};
use dh_syntax::TokenKind;

/// Behind `word@`.
pub(crate) fn indexed<M: Makes>(
    reader: &mut Reader<M>,
    word: Word,
    kind: TokenKind,
) -> Result<(), Stop>
    requires { reader.old.top ≡ tops.Need }
    ensures { Follows M.views (next (M.makes reader.old.at) (machine.indexed (word_of word)) kind (stack_of M.views reader.old.frames)) reader.new result }
{
    match natural_of(&kind) {
        Some(index) => match u32::try_from(index) {
            Ok(index) => {
                let made = M::variable(reader.alloc, reader.at, word, Some(index))?;
                reader.enter_ready(made)
            }
            // No index that a token has is that wide.
            Err(_) => Err(Stop::Memory),
        },
        None => Err(Stop::Refused),
    }
}

/// Behind an import and `as`.
pub(crate) fn moded<M: Makes>(
    reader: &mut Reader<M>,
    import: Imported,
    kind: TokenKind,
) -> Result<(), Stop>
    requires { reader.old.top ≡ tops.Need }
    ensures { Follows M.views (next (M.makes reader.old.at) (machine.moded (source_of import.source) import.digest) kind (stack_of M.views reader.old.frames)) reader.new result }
{
    match mode_of(&kind) {
        Some(mode) => {
            let Imported { source, digest } = import;
            let made = M::import(reader.alloc, reader.at, source, digest, mode)?;
            reader.enter_ready(made)
        }
        None => Err(Stop::Refused),
    }
}
