//! Waits of texts.
ghost use Rattle.std.specs.Prelude.{◌≡◌, IfOk};
ghost use Rattle.dh_grammar.specs.Machine as machine;
ghost use Rattle.dh_reader.specs.Follows.{Follows};
ghost use Rattle.dh_reader.specs.Inside.Nexts.{next};
ghost use Rattle.dh_reader.specs.Stacks.{stack_of};
ghost use Rattle.dh_reader.specs.declared.tops.Top.TheVariants as tops;
ghost use Rattle.dh_reader.specs.States.{front_of};

use crate::frames::Shut;
use crate::reader::Reader;
use crate::stops::{Stop, refused};
use crate::tops::{Front, Wait};
use dh_making::Makes;
use dh_syntax::{Piece, TextForm, TokenKind};
use std::alloc::AllocError;

/// What has been read of a text, with a piece behind it where there is one.
fn sealed<M: Makes>(
    reader: &Reader<M>,
    front: Front<M>,
    piece: Option<Piece>,
) -> Result<M::Chunks, AllocError>
    ensures { IfOk result (λ cs. M.views.chunks cs ≡ machine.sealed (M.makes reader.now.at) (front_of M.views front) piece) }
{
    match front {
        Front::Opening => M::start(reader.alloc, reader.at, piece),
        Front::Behind(chunks, interpolation) => M::more_chunks(
            reader.alloc,
            reader.at,
            chunks,
            interpolation,
            piece,
        ),
    }
}

/// Behind the opening of a text, or behind an interpolation.
pub(crate) fn text_front<M: Makes>(
    reader: &mut Reader<M>,
    form: TextForm,
    front: Front<M>,
    kind: TokenKind,
) -> Result<(), Stop>
    requires { reader.old.top ≡ tops.Need }
    ensures { Follows M.views (next (M.makes reader.old.at) (machine.text_front form (front_of M.views front)) kind (stack_of M.views reader.old.frames)) reader.new result }
{
    match kind {
        TokenKind::TextPiece(piece) => {
            let chunks = sealed(reader, front, Some(piece))?;
            reader.enter_wait(Wait::TextPiece(form, chunks))
        }
        TokenKind::InterpolationOpen => {
            let chunks = sealed(reader, front, None)?;
            reader.enter_shut(Shut::Chunk(form, chunks))
        }
        TokenKind::TextClose => {
            let chunks = sealed(reader, front, None)?;
            let made = M::text(reader.alloc, reader.at, form, chunks)?;
            reader.enter_ready(made)
        }
        other => Err(refused((other, front))),
    }
}

/// Behind a piece of a text.
pub(crate) fn text_piece<M: Makes>(
    reader: &mut Reader<M>,
    form: TextForm,
    chunks: M::Chunks,
    kind: TokenKind,
) -> Result<(), Stop>
    requires { reader.old.top ≡ tops.Need }
    ensures { Follows M.views (next (M.makes reader.old.at) (machine.text_piece form (M.views.chunks chunks)) kind (stack_of M.views reader.old.frames)) reader.new result }
{
    match kind {
        TokenKind::InterpolationOpen => reader.enter_shut(Shut::Chunk(form, chunks)),
        TokenKind::TextClose => {
            let made = M::text(reader.alloc, reader.at, form, chunks)?;
            reader.enter_ready(made)
        }
        other => Err(refused((other, chunks))),
    }
}
