//! What an error of the system means to a desk.

ghost use Rattle.std.specs.Prelude.{◌≡◌, ◌↔◌, Some, IsNone, MatchOption};
ghost use Rattle.std.specs.IoError.{error_kind};
ghost use Rattle.dh_desks.specs.Answers.{MeansNoFile};

use dh_ports::DeskError;
use std::io::{Error, ErrorKind};

/// The fault of a call that ended in an error: want of memory, or else a failed device.
pub(crate) fn fault_of(error: &Error) -> DeskError
    ensures memory { (result ≡ DeskError.Memory) ↔ (error_kind error.now ≡ ErrorKind.OutOfMemory) }
{
    match error.kind() {
        ErrorKind::OutOfMemory => DeskError::Memory,
        _ => DeskError::Failed,
    }
}

/// The fault of a read that ended in an error. `None` where the error says that there is no file: there is nothing of that
/// name, or a file stands where the path has a folder, or a folder is all that is there.
pub(crate) fn read_fault(error: &Error) -> Option<DeskError>
    ensures absent { IsNone result ↔ MeansNoFile (error_kind error.now) }
    ensures memory { (result ≡ Some DeskError.Memory) ↔ (error_kind error.now ≡ ErrorKind.OutOfMemory) }
{
    match error.kind() {
        ErrorKind::NotFound | ErrorKind::NotADirectory | ErrorKind::IsADirectory => None,
        _ => Some(fault_of(error)),
    }
}
