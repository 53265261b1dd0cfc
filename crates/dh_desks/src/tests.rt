//! The desk over folders of the tests' own.

mod full_disk;
mod outside;

use crate::desks::some_desks;
use crate::entries::{read_entry, write_entry};
use crate::reading::variable_text;
use crate::{Folder, Folders, SystemDesk};
use dh_ports::{Desk, DeskError, Silent};
use dh_syntax::{Digest, Loc, MOST_BYTES, MOST_ENTRY_BYTES, Piece, Url};
use full_disk::FullDisk;
use outside::{
    UNSET, Variables, at, comps, count_found, count_held, count_of, entry_named, finds, finds_at,
    holds, new_folder, path_in, told, write, write_long,
};
use std::alloc::{AllocError, Global};
use std::io::{Read, Write};
use std::net::TcpListener;
use std::os::unix::fs::symlink;
use std::sync::atomic::{AtomicU64, Ordering};
use std::test::Fail;
use std::thread::Threads;
use std::{env, fs, io, thread};

const NO_FOLDERS: Folders = Folders {
    home: Folder::Unset,
    cache: Folder::Unset,
};

/// The same file as a path from the working directory, from the root, from the parent folder, and from a home folder which
/// is that one.
fn locations(alloc: Global, above: &str, last: &str, file: &str) -> Result<Vec<Loc>, AllocError> {
    let absolute = format!(in alloc; "{above}/{last}/{file}")?;
    let below = path_in(alloc, last, file)?;
    let mut locs = Vec::new(alloc);
    locs.push(Loc::Here(comps(alloc, file)?))?;
    locs.push(Loc::Abs(comps(alloc, absolute.trim_start_matches('/'))?))?;
    locs.push(Loc::Parent(comps(alloc, below.as_str())?))?;
    locs.push(Loc::Home(comps(alloc, below.as_str())?))?;
    Ok(locs)
}

#[test]
fn paths_begin_at_four_places(rt: HostRuntime) -> Result<(), Fail> {
    let folder = new_folder(&rt, "paths")?;
    write(&rt, folder.as_str(), "a file", b"1")?;
    let file = path_in(rt.alloc(), folder.as_str(), "a file")?;
    let here = env::current_dir(&rt)?;
    let (above, last) = here.as_str().rsplit_once('/').ok_or("no folder")?;
    let locs = locations(rt.alloc(), above, last, file.as_str())?;
    let folders = Folders {
        home: at(rt.alloc(), above)?,
        cache: Folder::Unset,
    };
    let mut desk = SystemDesk::new(rt, rt.alloc(), &folders);
    for loc in locs.as_slice() {
        assert!(rt; finds(&mut desk, rt.alloc(), loc, b"1"));
    }
    assert_eq!(rt; desk.asked_count(), 4);
    assert_eq!(rt; desk.fault_count(), 0);
    fs::remove_dir_all(&rt, folder.as_str())?;
    Ok(())
}

/// A folder with a file, a link to itself and a link to nothing.
fn links(rt: &HostRuntime) -> Result<String, Fail> {
    let folder = new_folder(rt, "links")?;
    write(rt, folder.as_str(), "a", b"")?;
    let path = path_in(rt.alloc(), folder.as_str(), "loop")?;
    symlink(rt, "loop", path.as_str())?;
    let path = path_in(rt.alloc(), folder.as_str(), "link")?;
    symlink(rt, "gone", path.as_str())?;
    Ok(folder)
}

#[test]
fn what_is_no_file_is_absent(rt: HostRuntime) -> Result<(), Fail> {
    let folder = links(&rt)?;
    let folders = NO_FOLDERS;
    let mut desk = SystemDesk::new(rt, rt.alloc(), &folders);
    let rows = [
        ("a", "", 0),
        ("b", "(absent)", 0),
        ("b/c", "(absent)", 0),
        ("a/c", "(absent)", 0),
        ("link", "(absent)", 0),
        (".", "(absent)", 0),
        ("loop", "(failed)", 1),
    ];
    for (name, want, faults) in rows {
        let path = path_in(rt.alloc(), folder.as_str(), name)?;
        let is_found = finds_at(&mut desk, rt.alloc(), path.as_str(), want.as_bytes())?;
        assert!(rt; is_found, "at {name}");
        assert_eq!(rt; desk.fault_count(), faults, "at {name}");
    }
    fs::remove_dir_all(&rt, folder.as_str())?;
    Ok(())
}

#[test]
fn a_device_that_fails_while_it_is_read_is_told(rt: HostRuntime) -> Result<(), Fail> {
    let folders = NO_FOLDERS;
    let mut desk = SystemDesk::new(rt, rt.alloc(), &folders);
    // No page stands at address 0 of a process.
    let memory = Loc::Abs(comps(rt.alloc(), "proc/self/mem")?);
    assert!(rt; finds(&mut desk, rt.alloc(), &memory, b"(failed)"));
    assert_eq!(rt; desk.fault_count(), 1);
    assert_eq!(rt; desk.asked_count(), 1);
    Ok(())
}

#[test]
fn files_are_read_to_their_end(rt: HostRuntime) -> Result<(), Fail> {
    let folder = new_folder(&rt, "whole")?;
    let mut bytes = Vec::new(rt.alloc());
    for n in 0..30_000u32 {
        bytes.push((n % 251) as u8)?;
    }
    write(&rt, folder.as_str(), "a", bytes.as_slice())?;
    let path = path_in(rt.alloc(), folder.as_str(), "a")?;
    let folders = NO_FOLDERS;
    let mut desk = SystemDesk::new(rt, rt.alloc(), &folders);
    assert!(rt; finds_at(&mut desk, rt.alloc(), path.as_str(), bytes.as_slice())?);
    fs::remove_dir_all(&rt, folder.as_str())?;
    Ok(())
}

#[test]
fn files_are_read_to_the_limit(rt: HostRuntime) -> Result<(), Fail> {
    let folder = new_folder(&rt, "limit")?;
    let path = path_in(rt.alloc(), folder.as_str(), "a")?;
    let folders = NO_FOLDERS;
    let mut desk = SystemDesk::new(rt, rt.alloc(), &folders);
    for (len, want) in [
        (MOST_BYTES, MOST_BYTES),
        (MOST_BYTES + 1, MOST_BYTES + 1),
        (MOST_BYTES + 2, MOST_BYTES + 1),
    ] {
        write_long(&rt, folder.as_str(), "a", len)?;
        assert_eq!(rt;
            count_found(&mut desk, rt.alloc(), path.as_str())?,
            Some(want)
        );
    }
    fs::remove_dir_all(&rt, folder.as_str())?;
    Ok(())
}

/// Whether a variable of this value is found as this text.
fn is_text(rt: &HostRuntime, value: &[u8], want: &[u8]) -> bool {
    let env = Variables {
        text: Some(value),
        ..UNSET
    };
    told(&variable_text(&env, rt.alloc(), "TEXT")) == want
}

#[test]
fn variables_are_texts(rt: HostRuntime) -> Result<(), Fail> {
    assert!(rt; is_text(&rt, b"", b""));
    assert!(rt; is_text(&rt, b"1 + \xff", b"1 + \xff"));
    let long = vec![in rt.alloc(); b'x'; 5000]?;
    assert!(rt; is_text(&rt, long.as_slice(), long.as_slice()));
    let longer = vec![in rt.alloc(); b'x'; MOST_BYTES + 5]?;
    let longest = vec![in rt.alloc(); b'x'; MOST_BYTES + 1]?;
    assert!(rt; is_text(&rt, longer.as_slice(), longest.as_slice()));
    assert!(rt; told(&variable_text(&UNSET, rt.alloc(), "TEXT")) == b"(absent)".as_slice());
    Ok(())
}

/// The file `a` at a port of this machine.
fn url(alloc: Global, port: u16) -> Result<Url, AllocError> {
    Ok(Url {
        host: Piece::of(format!(in alloc; "localhost:{port}")?),
        comps: comps(alloc, "a")?,
        query: None,
    })
}

#[test]
fn places_without_a_file(rt: HostRuntime) -> Result<(), Fail> {
    let folders = NO_FOLDERS;
    let mut desk = SystemDesk::new(rt, rt.alloc(), &folders);
    // Nobody listens at port 1.
    let http = Loc::Http(url(rt.alloc(), 1)?);
    assert!(rt; finds(&mut desk, rt.alloc(), &http, b"(failed)"));
    let https = Loc::Https(url(rt.alloc(), 1)?);
    assert!(rt; finds(&mut desk, rt.alloc(), &https, b"(broken)"));
    assert!(rt; finds(&mut desk, rt.alloc(), &Loc::Missing, b"(absent)"));
    // HOME is unset.
    let home = Loc::Home(comps(rt.alloc(), "a")?);
    assert!(rt; finds(&mut desk, rt.alloc(), &home, b"(absent)"));
    let unset = Loc::Env(Piece::new(rt.alloc(), "DH_DESKS_IS_UNSET")?);
    assert!(rt; finds(&mut desk, rt.alloc(), &unset, b"(absent)"));
    assert_eq!(rt; desk.asked_count(), 5);
    assert_eq!(rt; desk.fault_count(), 1);
    Ok(())
}

/// Answers one request on each of so many connections with the text `42`, and none before all of them are asked.
fn serve(listener: &TcpListener, alloc: Global, count: usize) -> io::Result<()> {
    let mut streams = Vec::new(alloc);
    for _ in 0..count {
        let (mut stream, _) = listener.accept()?;
        let mut request = [0u8; 512];
        let _ = stream.read(&mut request)?;
        streams.push(stream)?;
    }
    for stream in streams.as_mut_slice() {
        stream.write_all(b"HTTP/1.1 200 OK\r\nContent-Length: 2\r\n\r\n42")?;
    }
    Ok(())
}

/// Fetches a location once by each desk, all at once, and counts those that do not find `42`.
fn fetch_by_each<R: Threads + Sync, D: Desk<Silent> + Send>(
    rt: &R,
    alloc: Global,
    desks: &mut [D],
    loc: &Loc,
) -> u64 {
    let wrong = AtomicU64::new(0);
    thread::for_each_mut(
        rt,
        desks,
        8,
        &|_, desk| {
            if !finds(desk, alloc, loc, b"42") {
                wrong.fetch_add(1, Ordering::SeqCst);
            }
        },
    );
    wrong.load(Ordering::SeqCst)
}

/// Serves desks that fetch a location all at once. Answers whether each was served, and how many did not find `42`.
fn serve_each<'a, R: Threads + Sync, D: Desk<Silent> + Send>(
    rt: &'a R,
    alloc: Global,
    listener: &'a TcpListener,
    desks: &'a mut [D],
    loc: &'a Loc,
) -> (bool, u64) {
    let count = desks.len();
    thread::join(
        rt,
        || serve(listener, alloc, count).is_ok(),
        || fetch_by_each(rt, alloc, desks, loc),
    )
}

#[test]
fn desks_fetch_side_by_side(rt: HostRuntime) -> Result<(), Fail> {
    let listener = TcpListener::bind(&rt, "127.0.0.1:0")?;
    let loc = Loc::Http(url(rt.alloc(), listener.local_addr()?.port())?);
    let folders = NO_FOLDERS;
    for count in [1, 8] {
        let mut desks = some_desks(rt, rt.alloc(), &folders, count)?;
        let (served, wrong) = serve_each(&rt, rt.alloc(), &listener, desks.as_mut_slice(), &loc);
        assert!(rt; served);
        assert_eq!(rt; wrong, 0);
    }
    Ok(())
}

/// The path of a folder, or a word in brackets.
fn named(folder: &Folder) -> &str {
    match folder {
        Folder::Unset => "(unset)",
        Folder::At(path) => path.as_str(),
        Folder::Untold => "(untold)",
    }
}

#[test]
fn folders_are_those_of_the_environment(rt: HostRuntime) -> Result<(), Fail> {
    let (home, caches, nothing) = (b"/h".as_slice(), b"/c".as_slice(), b"".as_slice());
    let spoilt = b"/\xff".as_slice();
    let rows = [
        (None, None, "(unset)", "(unset)"),
        (Some(home), None, "/h", "/h/.cache/dhall"),
        (Some(home), Some(nothing), "/h", "/h/.cache/dhall"),
        (Some(home), Some(caches), "/h", "/c/dhall"),
        (None, Some(caches), "(unset)", "/c/dhall"),
        (Some(nothing), Some(nothing), "(unset)", "(unset)"),
        (Some(spoilt), None, "(untold)", "(untold)"),
        (Some(spoilt), Some(caches), "(untold)", "/c/dhall"),
        (Some(home), Some(spoilt), "/h", "(untold)"),
    ];
    for (home, caches, want_home, want_cache) in rows {
        let variables = Variables {
            home,
            caches,
            text: None,
        };
        let folders = Folders::read(&(variables, rt.alloc()))?;
        assert_eq!(rt; named(&folders.home), want_home);
        assert_eq!(rt; named(&folders.cache), want_cache);
    }
    Ok(())
}

/// A folder of the cache, which is not made yet.
fn cache_in(rt: &HostRuntime, folder: &str) -> Result<Folders, AllocError> {
    let path = path_in(rt.alloc(), folder, "caches/dhall")?;
    Ok(Folders {
        home: Folder::Unset,
        cache: at(rt.alloc(), path.as_str())?,
    })
}

#[test]
fn looks_find_what_was_kept(rt: HostRuntime) -> Result<(), Fail> {
    let folder = new_folder(&rt, "kept")?;
    let folders = cache_in(&rt, folder.as_str())?;
    let mut desk = SystemDesk::new(rt, rt.alloc(), &folders);
    let d = Digest([0xAB; 32]);
    assert!(rt; holds(&mut desk, rt.alloc(), &d, b"(none)"));
    for bytes in [b"first".as_slice(), b"".as_slice(), b"next".as_slice()] {
        assert_eq!(rt; desk.keep(&d, bytes), Ok(()));
        assert!(rt; holds(&mut desk, rt.alloc(), &d, bytes));
        assert_eq!(rt; count_of(&rt, named(&folders.cache))?, 1);
    }
    assert!(rt; holds(&mut desk, rt.alloc(), &Digest([0xAC; 32]), b"(none)"));
    assert_eq!(rt; desk.asked_count(), 0);
    assert_eq!(rt; desk.fault_count(), 0);
    fs::remove_dir_all(&rt, folder.as_str())?;
    Ok(())
}

#[test]
fn entries_are_files_that_other_tools_know(rt: HostRuntime) -> Result<(), Fail> {
    let folder = new_folder(&rt, "entries")?;
    let folders = cache_in(&rt, folder.as_str())?;
    let mut desk = SystemDesk::new(rt, rt.alloc(), &folders);
    let d = Digest([0xAB; 32]);
    assert_eq!(rt; desk.keep(&d, b"kept"), Ok(()));
    let name = entry_named(rt.alloc(), "ab")?;
    let path = path_in(rt.alloc(), named(&folders.cache), name.as_str())?;
    assert_eq!(rt;
        fs::read(&rt, path.as_str())?.as_slice(),
        b"kept".as_slice()
    );
    for (len, want) in [
        (MOST_ENTRY_BYTES, Some(MOST_ENTRY_BYTES)),
        (MOST_ENTRY_BYTES + 1, None),
    ] {
        write_long(&rt, named(&folders.cache), name.as_str(), len)?;
        assert_eq!(rt; count_held(&mut desk, rt.alloc(), &d), want);
    }
    assert_eq!(rt; desk.fault_count(), 0);
    fs::remove_dir_all(&rt, folder.as_str())?;
    Ok(())
}

#[test]
fn a_part_that_another_writer_left_is_no_entry(rt: HostRuntime) -> Result<(), Fail> {
    let folder = new_folder(&rt, "parts")?;
    let folders = cache_in(&rt, folder.as_str())?;
    let mut desk = SystemDesk::new(rt, rt.alloc(), &folders);
    let (one, other) = (Digest([0xAB; 32]), Digest([0xAC; 32]));
    assert_eq!(rt; desk.keep(&one, b"1"), Ok(()));
    let mut part = entry_named(rt.alloc(), "ac")?;
    part.push_str(".part0")?;
    write(&rt, named(&folders.cache), part.as_str(), b"half")?;
    assert!(rt; holds(&mut desk, rt.alloc(), &other, b"(none)"));
    assert_eq!(rt; desk.keep(&other, b"whole"), Ok(()));
    assert!(rt; holds(&mut desk, rt.alloc(), &other, b"whole"));
    let path = path_in(rt.alloc(), named(&folders.cache), part.as_str())?;
    assert_eq!(rt;
        fs::read(&rt, path.as_str())?.as_slice(),
        b"half".as_slice()
    );
    fs::remove_dir_all(&rt, folder.as_str())?;
    Ok(())
}

/// Makes a folder where the file of a digest would be.
fn block(rt: &HostRuntime, cache: &str) -> io::Result<()> {
    let name = entry_named(rt.alloc(), "ab")?;
    fs::create_dir_all(rt, path_in(rt.alloc(), cache, name.as_str())?.as_str())
}

#[test]
fn a_keep_that_fails_leaves_nothing(rt: HostRuntime) -> Result<(), Fail> {
    let folder = new_folder(&rt, "fails")?;
    let folders = cache_in(&rt, folder.as_str())?;
    let mut desk = SystemDesk::new(rt, rt.alloc(), &folders);
    let d = Digest([0xAB; 32]);
    // No file takes the name of a folder, and a folder is no entry.
    block(&rt, named(&folders.cache))?;
    assert_eq!(rt; desk.keep(&d, b"1"), Err(DeskError::Failed));
    assert_eq!(rt; count_of(&rt, named(&folders.cache))?, 1);
    assert!(rt; holds(&mut desk, rt.alloc(), &d, b"(none)"));
    assert_eq!(rt; desk.fault_count(), 1);
    // No folder is made where a file stands, and no entry is there.
    fs::remove_dir_all(&rt, named(&folders.cache))?;
    fs::write(&rt, named(&folders.cache), b"".as_slice())?;
    assert_eq!(rt; desk.keep(&d, b"1"), Err(DeskError::Failed));
    assert!(rt; holds(&mut desk, rt.alloc(), &d, b"(none)"));
    assert_eq!(rt; desk.fault_count(), 2);
    fs::remove_dir_all(&rt, folder.as_str())?;
    Ok(())
}

/// Whether an entry of 4,096 bytes is kept whole where a file has this room, and whether nothing is there where it is not.
fn keeps_all_or_nothing(rt: &HostRuntime, folder: &str, room: usize) -> Result<bool, Fail> {
    let disk = FullDisk { rt: *rt, room };
    let path = path_in(rt.alloc(), folder, "entry")?;
    let kept = write_entry(&disk, rt.alloc(), folder, path.as_str(), &[7; 4096]);
    let entry = read_entry(rt, rt.alloc(), path.as_str());
    let names = count_of(rt, folder)?;
    Ok(match (kept, entry) {
        (Ok(()), Ok(Some(bytes))) => names == 1 && bytes.as_slice() == [7; 4096].as_slice(),
        (Err(DeskError::Failed), Ok(None)) => names == 0 && room < 4096,
        _ => false,
    })
}

#[test]
fn a_full_disk_leaves_nothing(rt: HostRuntime) -> Result<(), Fail> {
    for room in [0, 1000, 4095, 4096] {
        let folder = new_folder(&rt, "full")?;
        assert!(rt;
            keeps_all_or_nothing(&rt, folder.as_str(), room)?,
            "at {room}"
        );
        fs::remove_dir_all(&rt, folder.as_str())?;
    }
    Ok(())
}

#[test]
fn without_a_folder_nothing_is_kept(rt: HostRuntime) {
    let d = Digest([1; 32]);
    let folders = NO_FOLDERS;
    let mut desk = SystemDesk::new(rt, rt.alloc(), &folders);
    assert!(rt; holds(&mut desk, rt.alloc(), &d, b"(none)"));
    assert_eq!(rt; desk.keep(&d, b"1"), Err(DeskError::Failed));
    assert_eq!(rt; desk.fault_count(), 1);
    let folders = Folders {
        home: Folder::Untold,
        cache: Folder::Untold,
    };
    let mut desk = SystemDesk::new(rt, rt.alloc(), &folders);
    assert!(rt; holds(&mut desk, rt.alloc(), &d, b"(failed)"));
    assert_eq!(rt; desk.keep(&d, b"1"), Err(DeskError::Failed));
    assert_eq!(rt; desk.fault_count(), 2);
}

/// Keeps one entry many times, and counts the looks that do not find all of it.
fn keep_often<D: Desk<Silent>>(desk: &mut D, alloc: Global, wrong: &AtomicU64) {
    let (d, bytes) = (Digest([0xAB; 32]), [7; 4096]);
    for _ in 0..20 {
        let kept = desk.keep(&d, &bytes);
        if kept.is_err() || !holds(desk, alloc, &d, &bytes) {
            wrong.fetch_add(1, Ordering::SeqCst);
        }
    }
}

#[test]
fn desks_keep_side_by_side(rt: HostRuntime) -> Result<(), Fail> {
    let folder = new_folder(&rt, "beside")?;
    let folders = cache_in(&rt, folder.as_str())?;
    let mut desks = some_desks(rt, rt.alloc(), &folders, 8)?;
    let wrong = AtomicU64::new(0);
    thread::for_each_mut(
        &rt,
        desks.as_mut_slice(),
        4,
        &|_, desk| { keep_often(desk, rt.alloc(), &wrong) },
    );
    assert_eq!(rt; wrong.load(Ordering::SeqCst), 0);
    assert_eq!(rt; count_of(&rt, named(&folders.cache))?, 1);
    fs::remove_dir_all(&rt, folder.as_str())?;
    Ok(())
}
