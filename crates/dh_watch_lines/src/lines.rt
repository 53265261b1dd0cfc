//! What is told of a root.

ghost use Rattle.std.specs.Prelude.{string_bytes};
ghost use Rattle.dh_watch_lines.specs.Lines.{IsTold};

use dh_command::Status;
use dh_syntax::Piece;

/// A line, without its line feed, and how a run of the command with this line ends.
#[derive(Debug, Drop)]
pub struct Told {
    pub text: Piece,
    pub status: Status,
}

impl Told {
    /// This line, with this status.
    pub(crate) fn of(text: String, status: Status) -> Told
        ensures { IsTold result (string_bytes text) status }
    {
        Told {
            text: Piece::of(text),
            status,
        }
    }
}
