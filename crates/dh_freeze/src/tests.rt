//! The texts that freezing makes, written out by hand.

use crate::{DigestAt, Places, freeze, frozen_text};
use dh_syntax::Digest;
use std::test::Fail;

/// A digest of one byte, and its digits.
const ONES: Digest = Digest([0x11; 32]);

const ONE_DIGITS: &str = "1111111111111111111111111111111111111111111111111111111111111111";

const FS: Digest = Digest([0xAF; 32]);

const F_DIGITS: &str = "afafafafafafafafafafafafafafafafafafafafafafafafafafafafafafafaf";

#[test]
fn inserts_digests_and_nothing_else(rt: HostRuntime) -> Result<(), Fail> {
    let alloc = rt.alloc();
    let text = "[./a , ./b as Text] -- x";
    let first = DigestAt {
        offset: 4,
        digest: ONES,
    };
    let second = DigestAt {
        offset: 10,
        digest: FS,
    };
    let places = Places::of([first, second].to_vec(alloc)?);
    let wanted = format!(in alloc;
        "[./a sha256:{ONE_DIGITS} , ./b sha256:{F_DIGITS} as Text] -- x"
    )?;
    let frozen = freeze(alloc, text.as_bytes(), &places)?;
    assert_eq!(rt; frozen.as_slice(), wanted.as_str().as_bytes());
    Ok(())
}

#[test]
fn each_digest_stands_behind_its_import(rt: HostRuntime) -> Result<(), Fail> {
    let alloc = rt.alloc();
    // The fields of the record are in the order of their labels, so the offsets descend.
    let text = "{ b = ./b, a = ./a, c = missing }\n";
    let offsets: [u32; 3] = [18, 9, 31];
    let digests = [Some(ONES), Some(FS), None];
    let wanted = format!(in alloc;
        "{{ b = ./b sha256:{F_DIGITS}, a = ./a sha256:{ONE_DIGITS}, c = missing }}\n"
    )?;
    let frozen = frozen_text(alloc, text.as_bytes(), &offsets, &digests)?;
    assert_eq!(rt; frozen.as_slice(), wanted.as_str().as_bytes());
    let same = frozen_text(alloc, text.as_bytes(), &offsets, &[None; 3])?;
    assert_eq!(rt; same.as_slice(), text.as_bytes());
    Ok(())
}
