//! Tests: each kind of item with what comes of it, texts that are fetched, and entries that are looked up. Digests are by `sha256sum`.

ghost use Rattle.std.specs.Prelude.{IfOk};
ghost use Rattle.dh_syntax.specs.Expressions.Bridge.{term};
ghost use Rattle.dh_record.specs.Values.{IsCode, IsFit, IsValue};

use dh_imports::{Blame, Origin, Outcome, Why};
use dh_parse::parse;
use dh_ports::{
    Cache, CacheEntry, Content, Desk, DeskFails, Found, Got, MemDesk, Silent, are_short,
};
use dh_shelf::{Shelf, Visit};
use dh_syntax::{
    Bytes, Digest, Expr, Key, Loc, Many, Mode, NormFault, Op, ParseFault, Piece, TypeFault, Url,
};
use dh_table::{Body, Done, Item, News, Noted, Parsed, Seen};
use dh_terms::is_same_expr;
use dh_work::{fetch_text, good_entry, look_up, work_item};
use std::alloc::{AllocError, Global};
use std::test::Fail;

/// The digest of `82 0F 01`, the binary form of `1`.
const OF_ONE: Digest = Digest([
    0xd6, 0x0d, 0x84, 0x15, 0xe3, 0x6e, 0x86, 0xda, 0xe7, 0xf4, 0x29, 0x33, 0xd3, 0xb0, 0xc4, 0xfe,
    0x3c, 0xa2, 0x38, 0xf0, 0x57, 0xfb, 0xa2, 0x06, 0xc7, 0xe9, 0xfb, 0xf5, 0xd7, 0x84, 0xfe, 0x15,
]);

const ONE: [u8; 3] = [0x82, 0x0F, 0x01];

fn key(digest: Option<Digest>) -> Key {
    Key {
        loc: Loc::Missing,
        mode: Mode::Code,
        digest,
    }
}

/// The code of a text without imports.
fn code(alloc: Global, text: &str) -> Result<Expr, AllocError>
    ensures { IfOk result (λ e. IsCode (term e)) }
{
    match parse(alloc, text.as_bytes()) {
        Ok(e) => Ok(e),
        Err(_) => Err(AllocError),
    }
}

/// The value `1`.
fn one(alloc: Global) -> Expr
    ensures { IsValue (term result) }
{
    Expr::Node(Op::Nat(1), Many::new(alloc))
}

/// What comes of an item of a key with or without a digest.
fn done(alloc: Global, body: Body, digest: Option<Digest>) -> Result<Done, AllocError>
    requires { IsFit body }
{
    let item = Item {
        key: key(digest),
        allow: None,
        body,
    };
    work_item(alloc, item)
}

fn code_done(alloc: Global, text: &str) -> Result<Done, AllocError> {
    let code = code(alloc, text)?;
    done(alloc, Body::Code(code), None)
}

fn text_done(alloc: Global, bytes: Vec<u8>) -> Result<Done, AllocError> {
    done(alloc, Body::Text(Bytes::of(bytes)), None)
}

/// Whether the outcome is the value that a text spells.
fn is_value(alloc: Global, done: &Done, text: &str) -> Result<bool, AllocError> {
    let wanted = code(alloc, text)?;
    match done.outcome() {
        Outcome::Good { value, origin: _ } => Ok(!done.is_limit() && is_same_expr(value, &wanted)),
        Outcome::Bad(_) => Ok(false),
    }
}

fn why(done: &Done) -> Option<&Why> {
    match done.outcome() {
        Outcome::Good {
            value: _,
            origin: _,
        } => None,
        Outcome::Bad(blame) => Some(&blame.why),
    }
}

/// Whether a typing is refused at the part of this number by the rule of this number.
fn is_ill_at(done: &Done, part: u32, rule: u8) -> bool {
    match why(done) {
        Some(Why::Typing(TypeFault::Ill(ill))) => {
            !done.is_limit() && ill.rule == rule && ill.path.as_slice() == [part].as_slice()
        }
        _ => false,
    }
}

fn is_too_wide(done: &Done) -> bool {
    done.is_limit() && matches!(why(done), Some(Why::Norm(NormFault::Wide)))
}

/// Whether the value of code is the one that a text spells.
fn code_gives(alloc: Global, code: &str, value: &str) -> Result<bool, AllocError> {
    let done = code_done(alloc, code)?;
    is_value(alloc, &done, value)
}

/// Whether code is refused at the part of this number by the rule of this number.
fn code_is_ill(alloc: Global, code: &str, part: u32, rule: u8) -> Result<bool, AllocError> {
    let done = code_done(alloc, code)?;
    Ok(is_ill_at(&done, part, rule))
}

/// Whether the value of code has a number that is too wide.
fn code_is_too_wide(alloc: Global, code: &str) -> Result<bool, AllocError> {
    let done = code_done(alloc, code)?;
    Ok(is_too_wide(&done))
}

#[test]
fn code_is_typed_and_normalised(rt: HostRuntime) -> Result<(), Fail> {
    let alloc = rt.alloc();
    assert!(rt; code_gives(alloc, "1 + 1", "2")?);
    assert!(rt; code_is_ill(alloc, "[ 1 + True ]", 0, 14)?);
    assert!(rt; code_is_too_wide(alloc, "340282366920938463463374607431768211455 + 1")?);
    Ok(())
}

/// Whether a text is at fault so.
fn is_no_text(done: &Done, fault: ParseFault) -> bool {
    match why(done) {
        Some(Why::Parse(found)) => !done.is_limit() && *found == fault,
        _ => false,
    }
}

/// Whether the value of a text is the one that this spells.
fn text_gives(alloc: Global, bytes: &[u8], value: &str) -> Result<bool, AllocError> {
    let done = text_done(alloc, bytes.to_vec(alloc)?)?;
    is_value(alloc, &done, value)
}

/// Whether these bytes are no text, for this fault.
fn text_fails(alloc: Global, bytes: Vec<u8>, fault: ParseFault) -> Result<bool, AllocError> {
    let done = text_done(alloc, bytes)?;
    Ok(is_no_text(&done, fault))
}

#[test]
fn a_text_is_short_and_utf8(rt: HostRuntime) -> Result<(), Fail> {
    let alloc = rt.alloc();
    assert!(rt; text_gives(alloc, b"a$b", r#""a$b""#)?);
    let bytes = b"ab\xff".to_vec(alloc)?;
    assert!(rt; text_fails(alloc, bytes, ParseFault::NotUtf8(2))?);
    let bytes = Vec::from_elem(alloc, 0xff, 1_048_577)?;
    assert!(rt; text_fails(alloc, bytes, ParseFault::TooLarge)?);
    Ok(())
}

fn piece(alloc: Global, text: &str) -> Result<Many<Piece>, AllocError> {
    let mut pieces = Many::new(alloc);
    pieces.push(Piece::new(alloc, text)?)?;
    Ok(pieces)
}

fn url(alloc: Global) -> Result<Url, AllocError> {
    Ok(Url {
        host: Piece::new(alloc, "h")?,
        comps: piece(alloc, "a")?,
        query: None,
    })
}

/// Whether a location is this alternative of the type of locations.
fn is_located(alloc: Global, loc: Loc, alternative: &str) -> Result<bool, AllocError> {
    let text = format!(in alloc;
        "< Environment : Text | Local : Text | Missing | Remote : Text >.{alternative}"
    )?;
    let done = done(alloc, Body::Location(loc), None)?;
    is_value(alloc, &done, text.as_str())
}

#[test]
fn a_location_is_an_alternative(rt: HostRuntime) -> Result<(), Fail> {
    let alloc = rt.alloc();
    let here = Loc::Here(piece(alloc, "a")?);
    assert!(rt; is_located(alloc, here, r#"Local "./a""#)?);
    let home = Loc::Home(piece(alloc, "a")?);
    assert!(rt; is_located(alloc, home, r#"Local "~/a""#)?);
    let remote = Loc::Https(url(alloc)?);
    assert!(rt; is_located(alloc, remote, r#"Remote "https://h/a""#)?);
    let variable = Loc::Env(Piece::new(alloc, "A")?);
    assert!(rt; is_located(alloc, variable, r#"Environment "A""#)?);
    assert!(rt; is_located(alloc, Loc::Missing, "Missing")?);
    Ok(())
}

fn compared(alloc: Global, digest: Digest) -> Result<Done, AllocError> {
    let body = Body::Compare(one(alloc), Origin::Cached);
    done(alloc, body, Some(digest))
}

fn differs(done: &Done, from: Digest) -> bool {
    match why(done) {
        Some(Why::Differs { wanted, got }) => *wanted == from && *got == OF_ONE,
        _ => false,
    }
}

/// Whether the value `1` stays where it is compared with its own digest.
fn own_digest_stays(alloc: Global) -> Result<bool, AllocError> {
    let same = compared(alloc, OF_ONE)?;
    is_value(alloc, &same, "1")
}

/// Whether the value `1` differs from this digest, and the fault tells both.
fn digest_differs(alloc: Global, digest: Digest) -> Result<bool, AllocError> {
    let other = compared(alloc, digest)?;
    Ok(differs(&other, digest))
}

#[test]
fn a_value_is_compared_with_its_digest(rt: HostRuntime) -> Result<(), Fail> {
    let alloc = rt.alloc();
    assert!(rt; own_digest_stays(alloc)?);
    assert!(rt; digest_differs(alloc, Digest([7; 32]))?);
    Ok(())
}

/// Whether the value of an entry is that of its key.
fn entry_stays(alloc: Global) -> Result<bool, AllocError> {
    let entry = done(alloc, Body::Entry(one(alloc)), Some(OF_ONE))?;
    is_value(alloc, &entry, "1")
}

/// Whether the fault of an item is that of its key.
fn fault_stays(alloc: Global) -> Result<bool, AllocError> {
    let blame = Blame {
        at: Some(key(None)),
        why: Why::Cycle,
    };
    let fault = done(alloc, Body::Fault(blame), None)?;
    Ok(matches!(why(&fault), Some(Why::Cycle)))
}

#[test]
fn entries_and_faults_stay(rt: HostRuntime) -> Result<(), Fail> {
    let alloc = rt.alloc();
    assert!(rt; entry_stays(alloc)?);
    assert!(rt; fault_stays(alloc)?);
    Ok(())
}

fn here(alloc: Global, name: &str) -> Result<Loc, AllocError> {
    Ok(Loc::Here(piece(alloc, name)?))
}

fn content(alloc: Global, name: &str, text: &str) -> Result<Content, AllocError> {
    let bytes = Bytes::of(text.as_bytes().to_vec(alloc)?);
    Ok(Content {
        loc: here(alloc, name)?,
        got: Got::Found(Found { bytes, allow: None }),
    })
}

/// A desk where `./good` is the text `./a`, `./bad` the text `+`, and the digest of `1` has these bytes. Its third fetch fails.
fn desk(alloc: Global, entry: &[u8]) -> Result<MemDesk, AllocError> {
    let mut contents = Many::new(alloc);
    contents.push(content(alloc, "good", "./a")?)?;
    contents.push(content(alloc, "bad", "+")?)?;
    let mut cache: Cache = Many::new(alloc);
    cache.push(CacheEntry {
        digest: OF_ONE,
        bytes: Bytes::of(entry.to_vec(alloc)?),
    })?;
    let fails = DeskFails {
        fetch: Many::of([3].to_vec(alloc)?),
        look: Many::new(alloc),
        keep: Many::new(alloc),
    };
    if are_short(&contents) {
        Ok(MemDesk::new(alloc, contents, cache, fails))
    } else {
        Err(AllocError)
    }
}

/// What news of a text says, in one word.
fn word(news: &News) -> &'static str {
    match news {
        News::Fetched { loc: _, got, scan } => match scan {
            Some(Parsed::Good { expr: _, keys }) if keys.len() == 1 => "one import",
            Some(Parsed::Good { expr: _, keys: _ }) => "parsed",
            Some(Parsed::Bad(_)) => "bad",
            None => match got {
                Noted::Failed => "failed",
                Noted::Got(_) => "nothing",
            },
        },
        News::Looked { digest: _, look } => match look {
            Seen::Good(_) => "good",
            Seen::Miss => "miss",
            Seen::Failed => "failed",
        },
        News::Finished(_) => "finished",
    }
}

fn fetched<D: Desk<Silent>>(
    alloc: Global,
    desk: &mut D,
    name: &str,
) -> Result<&'static str, AllocError> {
    let news = fetch_text(alloc, desk, here(alloc, name)?)?;
    Ok(word(&news))
}

#[test]
fn a_text_is_fetched_and_parsed(rt: HostRuntime) -> Result<(), Fail> {
    let alloc = rt.alloc();
    let mut desk = desk(alloc, &ONE)?;
    for (name, wanted) in [
        ("good", "one import"),
        ("bad", "bad"),
        ("good", "failed"),
        ("other", "nothing"),
    ] {
        assert_eq!(rt; fetched(alloc, &mut desk, name)?, wanted);
    }
    Ok(())
}

fn looked(alloc: Global, digest: Digest, entry: &[u8]) -> Result<&'static str, AllocError> {
    let mut desk = desk(alloc, entry)?;
    let shelf: Shelf<Silent> = Shelf::new(alloc)?;
    let mut visit = Visit::new(alloc, &shelf)?;
    let news = look_up(alloc, &mut desk, &mut visit, digest)?;
    Ok(word(&news))
}

/// Whether bytes are a good entry of their own digest.
fn is_good(alloc: Global, bytes: &[u8]) -> Result<bool, AllocError> {
    let digest = Digest(<sha2::Sha256 as sha2::Digest>::digest(bytes));
    let entry = good_entry(alloc, digest, Bytes::of(bytes.to_vec(alloc)?))?;
    Ok(entry.is_some())
}

#[test]
fn entries_are_looked_up(rt: HostRuntime) -> Result<(), Fail> {
    let alloc = rt.alloc();
    assert_eq!(rt; looked(alloc, OF_ONE, &ONE)?, "good");
    assert_eq!(rt; looked(alloc, OF_ONE, &[0x82, 0x0F, 0x02])?, "miss");
    assert_eq!(rt; looked(alloc, Digest([7; 32]), &ONE)?, "miss");
    // `1`, `missing`, `_` and `λ(_ : Natural) → _`
    assert!(rt; is_good(alloc, &ONE)?);
    assert!(rt; !is_good(alloc, &[0x84, 0x18, 0x18, 0xF6, 0x00, 0x07])?);
    assert!(rt; !is_good(alloc, &[0x00])?);
    let function = b"\x83\x01\x67Natural\x00".as_slice();
    assert!(rt; is_good(alloc, function)?);
    Ok(())
}
