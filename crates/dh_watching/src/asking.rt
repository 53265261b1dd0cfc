//! The line of an ask: that of its location, or why it was refused.

ghost use Rattle.std.specs.Prelude.{◌≡◌, ◌++◌, codes, OnOk, OnErr};
ghost use Rattle.std.specs.Fmt.{decimal};
ghost use Rattle.dh_script_laws.specs.Scripts.{refusal_status, refusal_text};
ghost use Rattle.dh_streams.specs.Streams.{Gains, Stops, output};
ghost use Rattle.dh_watching.specs.Steps.{refusal_of};

use crate::watches::{Line, WatchFault};
use dh_command::Status;
use dh_ports::{Sink, WriteError};
use dh_streams::write_both;
use itoa::Buffer;

/// What tells an ask of a location that was answered, behind the location's text.
fn write_told<O: Sink>(out: &mut O, line: &Line) -> Result<(), WriteError>
    ensures ok { OnOk result (Gains (output (O.written out.old) (O.written out.new) (O.faults out.old) (O.faults out.new)) (line.now.text ++ (codes " (asked " ++ (decimal line.now.asked ++ codes ")\n")))) }
    ensures err { OnErr result (Stops (output (O.written out.old) (O.written out.new) (O.faults out.old) (O.faults out.new)) (line.now.text ++ (codes " (asked " ++ (decimal line.now.asked ++ codes ")\n")))) }
{
    match write_both(out, line.text.as_str().as_bytes(), b" (asked ") {
        Ok(()) => write_both(out, Buffer::new().format(line.asked).as_bytes(), b")\n"),
        Err(fault) => Err(fault),
    }
}

/// Writes the line of an ask that was answered.
pub fn write_answer<O: Sink>(out: &mut O, place: &str, line: &Line) -> Result<(), WriteError>
    ensures ok { OnOk result (Gains (output (O.written out.old) (O.written out.new) (O.faults out.old) (O.faults out.new)) (place.now ++ (codes ": " ++ (line.now.text ++ (codes " (asked " ++ (decimal line.now.asked ++ codes ")\n")))))) }
    ensures err { OnErr result (Stops (output (O.written out.old) (O.written out.new) (O.faults out.old) (O.faults out.new)) (place.now ++ (codes ": " ++ (line.now.text ++ (codes " (asked " ++ (decimal line.now.asked ++ codes ")\n")))))) }
{
    match write_both(out, place.as_bytes(), b": ") {
        Ok(()) => write_told(out, line),
        Err(fault) => Err(fault),
    }
}

/// What tells a refusal, without a line feed.
pub fn refusal_text(fault: WatchFault) -> &'static str
    ensures { result.now ≡ refusal_text (refusal_of fault) }
{
    match fault {
        WatchFault::Failed => "device failed",
        WatchFault::TooMany => "more than 4096 imports",
        WatchFault::Memory => "out of memory",
    }
}

/// How a run with this refusal ends.
pub fn refusal_status(fault: WatchFault) -> Status
    ensures { result ≡ refusal_status (refusal_of fault) }
{
    match fault {
        WatchFault::Failed => Status::Desk,
        WatchFault::TooMany => Status::Limit,
        WatchFault::Memory => Status::Memory,
    }
}

/// Writes the line of an ask that was refused.
pub fn write_refusal<O: Sink>(out: &mut O, place: &str, fault: WatchFault) -> Result<(), WriteError>
    ensures ok { OnOk result (Gains (output (O.written out.old) (O.written out.new) (O.faults out.old) (O.faults out.new)) (place.now ++ (codes ": " ++ (refusal_text (refusal_of fault) ++ codes "\n")))) }
    ensures err { OnErr result (Stops (output (O.written out.old) (O.written out.new) (O.faults out.old) (O.faults out.new)) (place.now ++ (codes ": " ++ (refusal_text (refusal_of fault) ++ codes "\n")))) }
{
    match write_both(out, place.as_bytes(), b": ") {
        Ok(()) => write_both(out, refusal_text(fault).as_bytes(), b"\n"),
        Err(fault) => Err(fault),
    }
}
