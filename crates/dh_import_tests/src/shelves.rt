//! Tests of the shelf, with good entries: natural numbers whose binary form `82 0F 19 hi lo` has a digest of the wanted slot. Which
//! numbers these are was searched for with SHA-256 alone.

ghost use Rattle.std.specs.Prelude.{◌≡◌};

use dh_ports::{CacheEntry, DeskFails, MemDesk, OpenGate, Silent, are_short};
use dh_session::resolve_one;
use dh_shelf::{MOST_SHELVED_BYTES, Put, Shelf, Visit};
use dh_syntax::{BoxedImport, Bytes, Digest, Expr, Import, Loc, Many, Mode, Op};
use dh_table::Ended;
use dh_work::good_entry;
use std::alloc::{AllocError, Global};
use std::sync::Wait;
use std::test::Fail;

/// Numbers whose digests are first probed in slot 1860.
const OF_ONE_SLOT: [u16; 17] = [
    512, 1752, 2238, 4170, 4187, 6305, 6669, 7362, 7932, 14092, 15845, 16793, 21391, 23199, 23636,
    28765, 28844,
];

/// Numbers whose digests are first probed in slot 4090, from which the probes go on to slot 4095 and from there to slot 0.
const OF_A_LAST_SLOT: [u16; 17] = [
    510, 4975, 8385, 9709, 13514, 15380, 21100, 25346, 26710, 26997, 28914, 29035, 35521, 37710,
    41321, 45778, 45832,
];

/// The binary form of a number from 256 to 65,535 (RFC 7049 §2.1).
fn bytes_of(number: u16) -> [u8; 5] {
    [0x82, 0x0F, 0x19, (number / 256) as u8, (number % 256) as u8]
}

fn digest_of(number: u16) -> Digest {
    Digest(<sha2::Sha256 as sha2::Digest>::digest(bytes_of(number).as_slice()))
}

/// What comes of putting the entry of a number, in one word.
fn put(
    alloc: Global,
    visit: &mut Visit<'_, Silent>,
    number: u16,
) -> Result<&'static str, AllocError> {
    let bytes = Bytes::of(bytes_of(number).to_vec(alloc)?);
    let Some(entry) = good_entry(alloc, digest_of(number), bytes)? else {
        return Ok("no entry");
    };
    if entry.bytes().as_slice().len() > MOST_SHELVED_BYTES {
        return Ok("too long");
    }
    Ok(match visit.put(entry) {
        Put::Kept => "kept",
        Put::There => "there",
        Put::Full(back) => {
            if back.bytes().as_slice() == bytes_of(number).as_slice() {
                "full"
            } else {
                "another"
            }
        }
        Put::Memory(_) => "memory",
    })
}

/// Whether the entry of a number is got.
fn gets(visit: &mut Visit<'_, Silent>, number: u16) -> bool {
    match visit.get(&digest_of(number)) {
        Some(entry) => entry.bytes().as_slice() == bytes_of(number).as_slice(),
        None => false,
    }
}

#[test]
fn what_was_put_is_got_again(rt: HostRuntime) -> Result<(), Fail> {
    let alloc = rt.alloc();
    let shelf: Shelf<Silent> = Shelf::new(alloc)?;
    let mut visit = Visit::new(alloc, &shelf)?;
    assert!(rt; !gets(&mut visit, 512));
    assert_eq!(rt; put(alloc, &mut visit, 512)?, "kept");
    assert!(rt; gets(&mut visit, 512));
    assert_eq!(rt; put(alloc, &mut visit, 512)?, "there");
    let mut other = Visit::new(alloc, &shelf)?;
    assert!(rt; gets(&mut other, 512));
    assert!(rt; !gets(&mut other, 1752));
    Ok(())
}

#[test]
fn the_seventeenth_entry_of_one_slot_is_handed_back(rt: HostRuntime) -> Result<(), Fail> {
    let alloc = rt.alloc();
    for numbers in [OF_ONE_SLOT, OF_A_LAST_SLOT] {
        let shelf: Shelf<Silent> = Shelf::new(alloc)?;
        let mut visit = Visit::new(alloc, &shelf)?;
        for number in &numbers[..16] {
            assert_eq!(rt; put(alloc, &mut visit, *number)?, "kept");
        }
        assert_eq!(rt; put(alloc, &mut visit, numbers[16])?, "full");
        assert!(rt; !gets(&mut visit, numbers[16]));
        let mut other = Visit::new(alloc, &shelf)?;
        for number in &numbers[..16] {
            assert!(rt; gets(&mut visit, *number) && gets(&mut other, *number));
        }
        assert!(rt; !gets(&mut other, numbers[16]));
    }
    Ok(())
}

/// A desk with the entry of 512 in its cache, at which only the first look does not fail.
fn failing_desk(alloc: Global) -> Result<MemDesk, AllocError> {
    let contents = Many::new(alloc);
    let mut cache = Many::new(alloc);
    cache.push(CacheEntry {
        digest: digest_of(512),
        bytes: Bytes::of(bytes_of(512).to_vec(alloc)?),
    })?;
    let fails = DeskFails {
        fetch: Many::new(alloc),
        look: Many::of([2, 3].to_vec(alloc)?),
        keep: Many::new(alloc),
    };
    if !are_short(&contents) {
        return Err(AllocError);
    }
    Ok(MemDesk::new(alloc, contents, cache, fails))
}

/// Whether `missing sha256:..`, with the digest of 512, is resolved by one worker.
fn resolves<T: Wait>(
    rt: &T,
    alloc: Global,
    desk: &mut MemDesk,
    visit: &mut Visit<'_, Silent>,
) -> Result<bool, AllocError> {
    let import = Import {
        loc: Loc::Missing,
        mode: Mode::Code,
        digest: Some(digest_of(512)),
    };
    let root = Expr::Node(
        Op::Import(BoxedImport::new(alloc, import)?),
        Many::new(alloc),
    );
    match resolve_one::<T, Silent, MemDesk, OpenGate>(rt, alloc, desk, visit, root, &OpenGate) {
        Ok(answered) => Ok(matches!(&answered.ended, Ended::Ready(_))),
        Err(_) => Err(AllocError),
    }
}

#[test]
fn a_second_run_finds_on_the_shelf_what_the_first_has_looked_up(
    rt: HostRuntime,
) -> Result<(), Fail> {
    let alloc = rt.alloc();
    let shelf: Shelf<Silent> = Shelf::new(alloc)?;
    let empty: Shelf<Silent> = Shelf::new(alloc)?;
    let mut desk = failing_desk(alloc)?;
    let mut visit = Visit::new(alloc, &shelf)?;
    assert!(rt; resolves(&rt, alloc, &mut desk, &mut visit)?);
    assert!(rt; resolves(&rt, alloc, &mut desk, &mut visit)?);
    let mut other = Visit::new(alloc, &shelf)?;
    assert!(rt; resolves(&rt, alloc, &mut desk, &mut other)?);
    assert_eq!(rt; desk.fault_count(), 0);
    let mut bare = Visit::new(alloc, &empty)?;
    assert!(rt; !resolves(&rt, alloc, &mut desk, &mut bare)?);
    assert_eq!(rt; desk.fault_count(), 1);
    Ok(())
}
