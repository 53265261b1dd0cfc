//! Heads worked out by hand from RFC 7049 §2.1.

use crate::{Atom, CborFault, Head, Mark, Marked, head_at, mark_at};
use std::test::Fail;

const fn head(major: u8, value: u64, next: usize) -> Result<Head, CborFault> {
    Ok(Head { major, value, next })
}

#[test]
fn reads_heads(rt: HostRuntime) {
    let rows: [(&[u8], Result<Head, CborFault>); 14] = [
        (&[0x17], head(0, 23, 1)),
        (&[0x98, 0x04], head(4, 4, 2)),
        (&[0x19, 0x01, 0x02], head(0, 258, 3)),
        (&[0x1A, 0, 0, 0, 7], head(0, 7, 5)),
        (
            &[0x9B, 1, 2, 3, 4, 5, 6, 7, 8],
            head(4, 0x0102_0304_0506_0708, 9),
        ),
        (&[0xC2, 0x41, 0x01], head(6, 2, 1)),
        (&[0xD9, 0xD9, 0xF7, 0xF5], head(6, 55799, 3)),
        (&[0xF8, 0x20], head(7, 32, 2)),
        (&[], Err(CborFault::Cut(0))),
        (&[0x1A, 0, 0, 0], Err(CborFault::Cut(0))),
        (&[0x9F, 0xFF], Err(CborFault::Indefinite(0))),
        (&[0xF9, 0x3C, 0x00], Err(CborFault::Float(0))),
        (&[0xC0], Err(CborFault::Tag(0))),
        (&[0x1C], Err(CborFault::Wide(0))),
    ];
    for (bytes, wanted) in rows {
        if bytes.len() < 1 << 32 {
            assert_eq!(rt; head_at(bytes, 0), wanted);
        }
    }
}

#[test]
fn reads_strings_with_their_heads(rt: HostRuntime) -> Result<(), Fail> {
    let bytes = [0xF5, 0x62, 0x68, 0x69, 0x43, 0x01];
    match mark_at(&bytes, 1) {
        Ok(
            Marked {
                mark: Mark::Atom(Atom::Characters(string)),
                next,
            },
        ) => {
            assert_eq!(rt; string, [0x68, 0x69].as_slice());
            assert_eq!(rt; next, 4);
        }
        _ => return Err(Fail::from("no text")),
    }
    match mark_at(&bytes, 4) {
        Err(fault) => assert_eq!(rt; fault, CborFault::Cut(4)),
        Ok(_) => return Err(Fail::from("not cut")),
    }
    Ok(())
}
