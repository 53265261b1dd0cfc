//! Tests of files over desks: the replies come in the order of the files, and of n desks each serves every n-th file, in turn.

use dh_batch::{Session, serve_files};
use dh_ports::Silent;
use dh_shelf::{Shelf, Visit};
use std::alloc::{AllocError, Global};
use std::sync::Wait;
use std::test::Fail;

/// A desk that counts the files that it has served.
#[derive(Drop)]
struct Counter {
    number: usize,
    served: usize,
}

/// Which file a desk has served, and as which of its own.
#[derive(Clone, Copy, Debug, PartialEq, Eq)]
struct Told {
    file: u8,
    desk: usize,
    turn: usize,
}

/// Sessions that tell this.
struct Tells;

impl Session<Silent, Counter, u8, Told> for Tells {
    ghost use Rattle.std.specs.Prelude.{⊤};

    ghost replies = { λ _ _ _ _ _. ⊤ };

    fn reply<T: Wait>(
        &self,
        _rt: &T,
        _alloc: Global,
        desk: &mut Counter,
        _visit: &mut Visit<'_, Silent>,
        file: &u8,
    ) -> Told {
        let told = Told {
            file: *file,
            desk: desk.number,
            turn: desk.served,
        };
        desk.served = desk.served.wrapping_add(1);
        told
    }
}

fn counters(alloc: Global, count: usize) -> Result<Vec<Counter>, AllocError> {
    let mut desks = Vec::new(alloc);
    for number in 0..count {
        desks.push(Counter { number, served: 0 })?;
    }
    Ok(desks)
}

const FILES: [u8; 7] = [10, 11, 12, 13, 14, 15, 16];

#[test]
fn replies_come_in_the_order_of_the_files(rt: HostRuntime) -> Result<(), Fail> {
    let alloc = rt.alloc();
    let shelf: Shelf<Silent> = Shelf::new(alloc)?;
    for workers in [1_u32, 2, 3, 9] {
        let mut desks = counters(alloc, 9)?;
        assert!(rt; 0 < workers && workers as usize <= desks.len());
        let replies = serve_files(
            &rt,
            alloc,
            &Tells,
            &mut desks,
            workers,
            &shelf,
            FILES.as_slice(),
        )?;
        assert_eq!(rt; replies.len(), 7);
        for (place, reply) in replies.iter().enumerate() {
            let wanted = Told {
                file: FILES[place % 7],
                desk: place % workers as usize,
                turn: place / workers as usize,
            };
            assert_eq!(rt; *reply, wanted);
        }
        for (place, desk) in desks.iter().enumerate() {
            assert_eq!(rt; desk.number, place);
        }
    }
    Ok(())
}
