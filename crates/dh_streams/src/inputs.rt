//! Reading the input: in pieces, to its end or one byte past what a text may have.

ghost use Rattle.std.specs.Prelude.{◌≡◌, ◌≢◌, ◌<◌, ◌≤◌, ◌++◌, ℕ, true, false, take, drop, length, vec_len, IfOk, IfErr, IfSome, IsTrue, OnOk, OnErr, MatchResult};
ghost use Rattle.std.specs.Io.KnownBytes.{Consumes, IsAtEnd};
ghost use Rattle.dh_ports.specs.Counts.{Rose};
ghost use Rattle.dh_streams.specs.Streams.{most_read};
ghost use Rattle.dh_streams.specs.Pieces.{TakesPiece};

use dh_ports::Feed;
use dh_syntax::MOST_BYTES;
use std::alloc::{AllocError, Global};

/// The most that is read of an input: one byte more than a text may have.
pub const MOST_READ: usize = MOST_BYTES + 1;

/// How many bytes are read at once.
const PIECE: usize = 4096;

/// Why an input was not read.
#[derive(Clone, Copy, Debug, PartialEq, Eq)]
pub enum InputFault {
    Failed,
    Memory,
}

impl From<AllocError> for InputFault {
    ghost use Rattle.std.specs.Prelude.{◌≡◌};
    ghost use Rattle.dh_streams.specs.declared.inputs.InputFault.TheVariants.{Memory};

    ghost from_gives = { λ _ e. e ≡ Memory };

    fn from(_e: AllocError) -> InputFault {
        InputFault::Memory
    }
}

/// Reads one piece and adds it. Answers whether there may be more.
fn read_piece<I: Feed>(input: &mut I, bytes: &mut Vec<u8>) -> Result<bool, InputFault>
    requires { length bytes.old.items < most_read }
    ensures taken { IfOk result (λ more. TakesPiece (I.left input.old) (I.left input.new) bytes.old.items bytes.new.items more) }
    ensures bound { length bytes.new.items ≤ most_read }
    ensures quiet { OnOk result (I.faults input.new ≡ I.faults input.old) }
    ensures failed { result ≡ Err InputFault.Failed → Rose (I.faults input.old) (I.faults input.new) }
{
    let mut piece = [0u8; PIECE];
    let room = (MOST_READ - bytes.len()).min(PIECE);
    match input.read(&mut piece[..room]) {
        Ok(n) => {
            bytes.extend_from_slice(&piece[..n])?;
            Ok(n > 0)
        }
        Err(_) => Err(InputFault::Failed),
    }
}

/// Reads an input to its end, or up to the most that is read.
pub fn read_input<I: Feed>(alloc: Global, input: &mut I) -> Result<Vec<u8>, InputFault>
    ensures taken { IfOk result (λ bytes. Consumes (I.left input.old) (I.left input.new) bytes.items) }
    ensures all { IfOk result (λ bytes. IfSome (I.left input.old) (λ left. bytes.items ≡ take most_read left)) }
    ensures quiet { OnOk result (I.faults input.new ≡ I.faults input.old) }
    ensures failed { result ≡ Err InputFault.Failed → Rose (I.faults input.old) (I.faults input.new) }
{
    let mut bytes = Vec::new(alloc);
    while bytes.len() < MOST_READ {
        match read_piece(input, &mut bytes) {
            Ok(true) => {}
            Ok(false) => return Ok(bytes),
            Err(fault) => return Err(fault),
        }
    }
    Ok(bytes)
}
