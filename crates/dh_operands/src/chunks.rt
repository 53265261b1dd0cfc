//! Texts with interpolations.
ghost use Rattle.std.specs.Prelude.{◌≡◌, IfOk};
ghost use Rattle.dh_grammar.specs.Stubs.{stubs};
ghost use Rattle.dh_operands.specs.Operands.{operand_of, chunks_of};
ghost use Rattle.dh_syntax.specs.Text.Meaning.{piece_of, text_pieces};

use crate::nodes::several;
use crate::operands::Operand;
use crate::parts::Part;
use dh_literals::unindent;
use dh_syntax::{Many, Op, Piece, Pieces, TextForm};
use std::alloc::{AllocError, Global};

/// What has been read of a text: the pieces between its interpolations, of which there is one more than of these.
#[derive(Drop)]
pub struct Chunks {
    pieces: Pieces,
    interpolations: Many<Part>,
}

impl Chunks {
    /// What stands before the first interpolation.
    pub fn start(alloc: Global, piece: Option<Piece>) -> Result<Chunks, AllocError>
        ensures { IfOk result (λ cs. chunks_of cs ≡ stubs.start piece) }
    {
        let mut pieces = Many::new(alloc);
        pieces.push(piece_or_none(alloc, piece)?)?;
        Ok(Chunks {
            pieces,
            interpolations: Many::new(alloc),
        })
    }

    /// One interpolation more, and what stands behind it.
    pub fn more(
        self,
        alloc: Global,
        interpolation: Operand,
        piece: Option<Piece>,
    ) -> Result<Chunks, AllocError>
        ensures { IfOk result (λ cs. chunks_of cs ≡ stubs.more_chunks (chunks_of self) (operand_of interpolation) piece) }
    {
        let Chunks {
            mut pieces,
            mut interpolations,
        } = self;
        pieces.push(piece_or_none(alloc, piece)?)?;
        interpolations.push(interpolation.part)?;
        Ok(Chunks {
            pieces,
            interpolations,
        })
    }

    /// The text.
    pub fn text(self, alloc: Global, form: TextForm) -> Result<Operand, AllocError>
        ensures { IfOk result (λ x. operand_of x ≡ stubs.text form (chunks_of self)) }
    {
        let Chunks {
            pieces,
            interpolations,
        } = self;
        let op = Op::Text(pieces_of(alloc, form, pieces)?);
        let part = several(alloc, op, interpolations.into_vec())?;
        Ok(Operand { part, level: 17 })
    }
}

/// The piece, the empty one where there is none.
fn piece_or_none(alloc: Global, piece: Option<Piece>) -> Result<Piece, AllocError>
    ensures { IfOk result (λ p. p ≡ piece_of piece) }
{
    match piece {
        Some(piece) => Ok(piece),
        None => Piece::new(alloc, ""),
    }
}

/// The pieces of the text, without the common indentation where it has several lines.
fn pieces_of(alloc: Global, form: TextForm, pieces: Pieces) -> Result<Pieces, AllocError>
    ensures { IfOk result (λ ps. ps ≡ text_pieces form pieces) }
{
    match form {
        TextForm::DoubleQuoted => Ok(pieces),
        TextForm::MultiLine => unindent(alloc, pieces),
    }
}
