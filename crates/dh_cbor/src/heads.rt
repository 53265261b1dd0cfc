//! Heads without their strings.

ghost use Rattle.std.specs.Prelude.{◌≡◌, ◌≤◌, ◌<◌, ◌+◌, ◌^◌, ◌/◌, ◌%◌, ◌==◌, ◌&&◌, ℕ, List, IfOk, length, take, drop, nat_lt};
ghost use Rattle.dh_syntax.specs.Bytes.BinaryHeads.{head_at, head_by, long_head, known, is_known_tag, big_endian};
ghost use Rattle.dh_cbor.specs.Readings.{ReadsHead, GivesHead, the_head};

use crate::faults::CborFault;

/// The major type of an item, from 0 to 7, its number, and the offset of what comes after the head.
#[derive(Clone, Copy, Debug, PartialEq, Eq)]
pub struct Head {
    pub major: u8,
    pub value: u64,
    pub next: usize,
}

/// The head that begins at an offset (RFC 7049 §2.1). A fault tells that offset.
pub fn head_at(bytes: &[u8], at: usize) -> Result<Head, CborFault>
    requires small { length bytes.now < 2 ^ 32 }
    requires within { at ≤ length bytes.now }
    ensures reads { ReadsHead bytes.now at result }
    ensures goes_on { IfOk result (λ h. (at < h.next) × (h.next ≤ length bytes.now)) }
{
    if at == bytes.len() {
        return Err(CborFault::Cut(at as u32));
    }
    head_by(bytes, at, bytes[at] / 32, bytes[at] % 32)
}

/// The head by its major type and the five low bits of its first byte.
fn head_by(bytes: &[u8], at: usize, major: u8, low: u8) -> Result<Head, CborFault>
    requires small { length bytes.now < 2 ^ 32 }
    requires within { at < length bytes.now }
    ensures reads { GivesHead bytes.now at (head_by major low (drop (at + 1) bytes.now)) result }
    ensures goes_on { IfOk result (λ h. (at < h.next) × (h.next ≤ length bytes.now)) }
{
    match low {
        0..24 => known(
            at,
            Head {
                major,
                value: u64::from(low),
                next: at + 1,
            },
        ),
        24 => long_head(bytes, at, major, 1),
        25 => long_head(bytes, at, major, 2),
        26 => long_head(bytes, at, major, 4),
        27 => long_head(bytes, at, major, 8),
        31 => Err(CborFault::Indefinite(at as u32)),
        _ => Err(CborFault::Wide(at as u32)),
    }
}

/// The head whose number stands in so many bytes behind its first one.
fn long_head(bytes: &[u8], at: usize, major: u8, size: usize) -> Result<Head, CborFault>
    requires small { length bytes.now < 2 ^ 32 }
    requires within { at < length bytes.now }
    requires fits { size ≤ 8 }
    ensures reads { GivesHead bytes.now at (long_head major size (drop (at + 1) bytes.now)) result }
    ensures goes_on { IfOk result (λ h. (at < h.next) × (h.next ≤ length bytes.now)) }
{
    let rest = after(bytes, at + 1);
    if rest.len() < size {
        return Err(CborFault::Cut(at as u32));
    }
    if is_float(major, size) {
        return Err(CborFault::Float(at as u32));
    }
    let value = big_endian(front(rest, size));
    known(
        at,
        Head {
            major,
            value,
            next: at + 1 + size,
        },
    )
}

/// The bytes from an offset on.
pub(crate) fn after(bytes: &[u8], from: usize) -> &[u8]
    requires { from ≤ length bytes.now }
    ensures { result.now ≡ drop from bytes.now }
{
    &bytes[from..]
}

/// The first bytes, so many of them.
pub(crate) fn front(bytes: &[u8], size: usize) -> &[u8]
    requires { size ≤ length bytes.now }
    ensures { result.now ≡ take size bytes.now }
{
    &bytes[..size]
}

/// Whether a number in so many bytes is a floating-point number: a simple value of more than one byte.
fn is_float(major: u8, size: usize) -> bool
    ensures { result ≡ (major == 7 && nat_lt 1 size) }
{
    major == 7 && size > 1
}

/// The number that these bytes say, the high ones first.
fn big_endian(bytes: &[u8]) -> u64
    requires { length bytes.now ≤ 8 }
    ensures { result ≡ big_endian bytes.now }
{
    let mut value: u64 = 0;
    for byte in bytes {
        value = 256 * value + u64::from(*byte);
    }
    value
}

/// The head, unless its tag is a foreign one.
fn known(at: usize, head: Head) -> Result<Head, CborFault>
    requires { at < 2 ^ 32 }
    ensures reads { (bytes : List ℕ) → GivesHead bytes at (known (the_head bytes head)) result }
    ensures same { IfOk result (λ h. h ≡ head) }
{
    if head.major == 6 && !is_known_tag(head.value) {
        return Err(CborFault::Tag(at as u32));
    }
    Ok(head)
}

/// Whether a tag is that of a bignum, or that of CBOR itself (RFC 7049 §2.4.2, §2.4.5).
fn is_known_tag(tag: u64) -> bool
    ensures { result ≡ is_known_tag tag }
{
    tag == 2 || tag == 3 || tag == 55799
}
