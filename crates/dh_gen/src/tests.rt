//! What no clause says: the text of the list, and that a desk makes what it is asked for.

use crate::{Gen, GenDesk, list_text, made, text_of};
use dh_ports::{Desk, DeskError, Got};
use dh_syntax::{Loc, Many, Piece};
use std::alloc::{AllocError, Global};
use std::test::Fail;

fn fetch<D: Desk<Gen>>(desk: &mut D, alloc: Global, loc: &Loc) -> Result<Got, DeskError> {
    desk.fetch(alloc, loc)
}

fn here(alloc: Global, name: &str) -> Result<Loc, AllocError> {
    let comps = Vec::from_array(alloc, [Piece::new(alloc, name)?])?;
    Ok(Loc::Here(Many::of(comps)))
}

#[test]
fn texts_are_spelled(rt: HostRuntime) -> Result<(), Fail> {
    let alloc = rt.alloc();
    assert_eq!(rt; text_of(alloc, 0)?.as_str(), "0");
    assert_eq!(rt; text_of(alloc, 1)?.as_str(), "1");
    assert_eq!(rt; text_of(alloc, 7)?.as_str(), "./g3 + ./g2 + 7");
    assert_eq!(rt; list_text(alloc, 0)?.as_str(), "[./g0]");
    assert_eq!(rt; list_text(alloc, 2)?.as_str(), "[./g0, ./g1, ./g2]");
    Ok(())
}

#[test]
fn a_desk_makes_what_it_is_asked_for(rt: HostRuntime) -> Result<(), Fail> {
    let alloc = rt.alloc();
    let mut desk = made();
    match fetch(&mut desk, alloc, &here(alloc, "g4000")?) {
        Ok(Got::Found(found)) => {
            assert_eq!(rt;
                found.bytes.as_slice(),
                b"./g2000 + ./g1333 + 4000".as_slice()
            );
        }
        _ => return Err(Fail::from("no text")),
    }
    for name in ["g4001", "g04", "g", "h4", "g+4"] {
        match fetch(&mut desk, alloc, &here(alloc, name)?) {
            Ok(Got::Absent) => {}
            _ => return Err(Fail::from("a text")),
        }
    }
    assert_eq!(rt; desk.asked_count(), 6);
    Ok(())
}
