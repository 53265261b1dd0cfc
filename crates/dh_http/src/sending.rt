//! Sending a request: in pieces until it is whole or a call fails.

ghost use Rattle.std.specs.Prelude.{◌≡◌, ◌<◌, ◌≤◌, ◌+◌, ℕ, take, drop, length, IfOk, OnOk, OnErr};
ghost use Rattle.std.specs.Io.KnownBytes.{Appends, Keeps};
ghost use Rattle.dh_ports.specs.Counts.{Rose};
ghost use Rattle.dh_http.specs.Sent.{SendsPart};

use crate::links::{Link, LinkError};

/// Sends some of the bytes from a place on, and answers how many.
fn send_piece<L: Link>(link: &mut L, bytes: &[u8], at: usize) -> Result<usize, LinkError>
    requires { at < length bytes.now }
    ensures goes_on { IfOk result (λ n. (0 < n) × (at + n ≤ length bytes.now)) }
    ensures gains { IfOk result (λ n. Appends (L.sent link.old) (L.sent link.new) (take n (drop at bytes.now))) }
    ensures keeps { OnErr result (Keeps (L.sent link.old) (L.sent link.new)) }
    ensures left { L.left link.new ≡ L.left link.old }
    ensures receives { L.receives link.new ≡ L.receives link.old }
    ensures quiet { OnOk result (L.faults link.new ≡ L.faults link.old) }
    ensures failed { OnErr result (Rose (L.faults link.old) (L.faults link.new)) }
{
    link.send(&bytes[at..])
}

/// Sends all of the bytes, or some first part of them before a call fails.
pub fn send_all<L: Link>(link: &mut L, bytes: &[u8]) -> Result<(), LinkError>
    ensures all { OnOk result (Appends (L.sent link.old) (L.sent link.new) bytes.now) }
    ensures part { OnErr result (SendsPart (L.sent link.old) (L.sent link.new) bytes.now) }
    ensures left { L.left link.new ≡ L.left link.old }
    ensures receives { L.receives link.new ≡ L.receives link.old }
    ensures quiet { OnOk result (L.faults link.new ≡ L.faults link.old) }
    ensures failed { OnErr result (Rose (L.faults link.old) (L.faults link.new)) }
{
    let mut at = 0;
    while at < bytes.len() {
        match send_piece(link, bytes, at) {
            Ok(n) => at += n,
            Err(fault) => return Err(fault),
        }
    }
    Ok(())
}
