//! Writing bytes: to an output in pieces until they are whole or a write fails.

ghost use Rattle.std.specs.Prelude.{◌≡◌, ◌<◌, ◌≤◌, ◌+◌, ◌++◌, ℕ, take, drop, length, IfOk, OnOk, OnErr};
ghost use Rattle.std.specs.Io.KnownBytes.{Appends, Keeps};
ghost use Rattle.dh_ports.specs.Counts.{Rose};
ghost use Rattle.dh_streams.specs.Streams.{Gains, Stops, output};

use dh_ports::{Sink, WriteError};

/// Writes some of the bytes from a place on, and answers how many.
fn write_piece<O: Sink>(sink: &mut O, bytes: &[u8], at: usize) -> Result<usize, WriteError>
    requires { at < length bytes.now }
    ensures goes_on { IfOk result (λ n. (0 < n) × (at + n ≤ length bytes.now)) }
    ensures gains { IfOk result (λ n. Appends (O.written sink.old) (O.written sink.new) (take n (drop at bytes.now))) }
    ensures keeps { OnErr result (Keeps (O.written sink.old) (O.written sink.new)) }
    ensures quiet { OnOk result (O.faults sink.new ≡ O.faults sink.old) }
    ensures failed { OnErr result (Rose (O.faults sink.old) (O.faults sink.new)) }
{
    sink.write(&bytes[at..])
}

/// Writes all of the bytes, or some first part of them before a write fails.
pub fn write_all<O: Sink>(sink: &mut O, bytes: &[u8]) -> Result<(), WriteError>
    ensures ok { OnOk result (Gains (output (O.written sink.old) (O.written sink.new) (O.faults sink.old) (O.faults sink.new)) bytes.now) }
    ensures err { OnErr result (Stops (output (O.written sink.old) (O.written sink.new) (O.faults sink.old) (O.faults sink.new)) bytes.now) }
{
    let mut at = 0;
    while at < bytes.len() {
        match write_piece(sink, bytes, at) {
            Ok(n) => at += n,
            Err(fault) => return Err(fault),
        }
    }
    Ok(())
}

/// Writes two stretches, one after the other: both whole, or some first part of them before a write fails.
pub fn write_both<O: Sink>(sink: &mut O, first: &[u8], second: &[u8]) -> Result<(), WriteError>
    ensures ok { OnOk result (Gains (output (O.written sink.old) (O.written sink.new) (O.faults sink.old) (O.faults sink.new)) (first.now ++ second.now)) }
    ensures err { OnErr result (Stops (output (O.written sink.old) (O.written sink.new) (O.faults sink.old) (O.faults sink.new)) (first.now ++ second.now)) }
{
    match write_all(sink, first) {
        Ok(()) => write_all(sink, second),
        Err(fault) => Err(fault),
    }
}
