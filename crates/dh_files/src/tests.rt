//! Which words name files, and the texts that they stand for.

use crate::{check_files, file_text};
use std::test::Fail;

#[test]
fn a_bare_word_is_the_name_of_a_file_beside(rt: HostRuntime) -> Result<(), Fail> {
    let alloc = rt.alloc();
    let bare = file_text(alloc, "a.dhall")?;
    let whole = file_text(alloc, "~/a")?;
    assert!(rt; bare.as_slice() == b"./a.dhall".as_slice());
    assert!(rt; whole.as_slice() == b"~/a".as_slice());
    Ok(())
}

#[test]
fn words_that_spell_a_location_are_files(rt: HostRuntime) -> Result<(), Fail> {
    let alloc = rt.alloc();
    let files = [
        "a",
        "a/b",
        "/a",
        "./a",
        "../a",
        "~/a/b.dhall",
        "\"a b\"/c",
        ".",
        "--workers",
    ];
    for word in files {
        let words = [String::from_str(alloc, word)?];
        assert!(rt; check_files(2, &words).is_ok());
    }
    let others = [
        "",
        "/",
        "./",
        "a/",
        "a//b",
        "a b",
        "\"a",
        "a\"",
        "\"\"",
        "a sha256:0",
        "http://a/b",
        "a#",
    ];
    for word in others {
        let words = [String::from_str(alloc, word)?];
        assert!(rt; check_files(2, &words).is_err());
    }
    Ok(())
}
