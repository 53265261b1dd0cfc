//! Heads with their strings.

ghost use Rattle.std.specs.Prelude.{◌≡◌, ◌≤◌, ◌<◌, ◌^◌, true, false, IfOk, IfErr, length, take, drop, nat_lt};
ghost use Rattle.dh_syntax.specs.Bytes.BinaryHeads.{mark_of};
ghost use Rattle.dh_cbor.specs.Readings.{ReadsMark, GivesMark, the_head};

use crate::faults::CborFault;
use crate::heads::{Head, after, front, head_at};

/// A head that is an item by itself: the number n, the number -1 - n, a string of bytes, a string of text (whose
/// bytes need not be UTF-8), or a simple value.
#[derive(Clone, Copy, Debug)]
pub enum Atom<'a> {
    Unsigned(u64),
    Negative(u64),
    Octets(&'a [u8]),
    Characters(&'a [u8]),
    Simple(u64),
}

/// A head with the bytes of its string: an item by itself, an array of so many items, a map of so many pairs, or a tag.
#[derive(Clone, Copy, Debug)]
pub enum Mark<'a> {
    Atom(Atom<'a>),
    Array(u64),
    Map(u64),
    Tag(u64),
}

/// A head with the bytes of its string, and the offset of what comes after them.
#[derive(Clone, Copy, Debug)]
pub struct Marked<'a> {
    pub mark: Mark<'a>,
    pub next: usize,
}

impl Head {
    /// This head, of an item without a string.
    fn marked<'a>(self, mark: Mark<'a>) -> Marked<'a>
        ensures { result ≡ record { mark = mark.entry; next = self.next } }
    {
        Marked {
            mark,
            next: self.next,
        }
    }
}

/// The head that begins at an offset, with its string. A fault tells that offset, also where the string is cut.
pub fn mark_at<'a>(bytes: &'a [u8], at: usize) -> Result<Marked<'a>, CborFault>
    requires small { length bytes.now < 2 ^ 32 }
    requires within { at ≤ length bytes.now }
    ensures reads { ReadsMark bytes.now at result }
    ensures goes_on { IfOk result (λ m. (at < m.next) × (m.next ≤ length bytes.now)) }
{
    let head = head_at(bytes, at)?;
    mark_of(bytes, at, head)
}

/// The head with its string.
fn mark_of<'a>(bytes: &'a [u8], at: usize, head: Head) -> Result<Marked<'a>, CborFault>
    requires small { length bytes.now < 2 ^ 32 }
    requires within { at < head.next }
    requires inside { head.next ≤ length bytes.now }
    ensures reads { GivesMark bytes.now at (mark_of (the_head bytes.now head)) result }
    ensures goes_on { IfOk result (λ m. (at < m.next) × (m.next ≤ length bytes.now)) }
{
    match head.major {
        0 => Ok(head.marked(Mark::Atom(Atom::Unsigned(head.value)))),
        1 => Ok(head.marked(Mark::Atom(Atom::Negative(head.value)))),
        2 => {
            let string = string_of(bytes, at, head)?;
            Ok(Marked {
                mark: Mark::Atom(Atom::Octets(string)),
                next: head.next + string.len(),
            })
        }
        3 => {
            let string = string_of(bytes, at, head)?;
            Ok(Marked {
                mark: Mark::Atom(Atom::Characters(string)),
                next: head.next + string.len(),
            })
        }
        4 => Ok(head.marked(Mark::Array(head.value))),
        5 => Ok(head.marked(Mark::Map(head.value))),
        6 => Ok(head.marked(Mark::Tag(head.value))),
        _ => Ok(head.marked(Mark::Atom(Atom::Simple(head.value)))),
    }
}

/// The bytes of a string, as many as its head says.
fn string_of<'a>(bytes: &'a [u8], at: usize, head: Head) -> Result<&'a [u8], CborFault>
    requires small { length bytes.now < 2 ^ 32 }
    requires within { at < head.next }
    requires inside { head.next ≤ length bytes.now }
    ensures enough { IfOk result (λ s. nat_lt (length (drop head.next bytes.now)) head.value ≡ false) }
    ensures length { IfOk result (λ s. length s.now ≡ head.value) }
    ensures value { IfOk result (λ s. s.now ≡ take head.value (drop head.next bytes.now)) }
    ensures cut { IfErr result (λ f. (nat_lt (length (drop head.next bytes.now)) head.value ≡ true) × (f ≡ CborFault.Cut at)) }
{
    let rest = after(bytes, head.next);
    if (rest.len() as u64) < head.value {
        return Err(CborFault::Cut(at as u32));
    }
    Ok(front(rest, head.value as usize))
}
