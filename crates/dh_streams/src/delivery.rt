//! Writing what a run has for its two outputs, and what it then answers.

ghost use Rattle.dh_command.specs.Lines.{write_line};
ghost use Rattle.dh_command.specs.Responses.{line, without_memory};
ghost use Rattle.dh_streams.specs.Streams.{Tries, output};
ghost use Rattle.dh_streams.specs.Deliveries.{Delivers};

use crate::writing::write_all;
use dh_command::Status;
use dh_ports::Sink;

/// Tries the line `write failed`, after a write to the other output has failed. A failure here has no output left.
pub fn tell_failure<E: Sink>(err: &mut E)
    ensures { Tries (output (E.written err.old) (E.written err.new) (E.faults err.old) (E.faults err.new)) (line write_line) }
{
    let _ = write_all(err, b"write failed\n");
}

/// Writes what a run has for the two outputs, and answers how it ended.
pub fn deliver<O: Sink, E: Sink>(
    to_out: &[u8],
    to_err: &[u8],
    status: Status,
    out: &mut O,
    err: &mut E,
) -> Status
    ensures { Delivers (record { out = to_out.now; err = to_err.now; status = status })
        (output (O.written out.old) (O.written out.new) (O.faults out.old) (O.faults out.new))
        (output (E.written err.old) (E.written err.new) (E.faults err.old) (E.faults err.new)) result }
{
    match write_all(out, to_out) {
        Ok(()) => {}
        Err(_) => {
            tell_failure(err);
            return Status::Write;
        }
    }
    match write_all(err, to_err) {
        Ok(()) => status,
        Err(_) => Status::Write,
    }
}

/// Tells that memory is wanting.
pub fn lack_memory<O: Sink, E: Sink>(out: &mut O, err: &mut E) -> Status
    ensures { Delivers without_memory
        (output (O.written out.old) (O.written out.new) (O.faults out.old) (O.faults out.new))
        (output (E.written err.old) (E.written err.new) (E.faults err.old) (E.faults err.new)) result }
{
    deliver(&[], b"out of memory\n", Status::Memory, out, err)
}
