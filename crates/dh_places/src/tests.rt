//! Parts made one after another, with the tokens that are read, and where their nodes stand.

use crate::{Locations, Placed, Places, Span, Stretches, in_text, offsets_after};
use dh_making::{EntryKey, Keys, Makes, Source, Word};
use dh_syntax::{BinOp, Label, Loc, Many, Mode, TextForm, Token, TokenKind};
use std::alloc::{AllocError, Global};
use std::collections::VecDeque;
use std::test::Fail;

fn word(alloc: Global, name: &str) -> Result<Word, AllocError> {
    Ok(Word::Plain(Label::new(alloc, name)?))
}

fn key(alloc: Global, name: &str) -> Result<EntryKey, AllocError> {
    Ok(EntryKey::Name(word(alloc, name)?))
}

/// A name alone, whose token stands before the one of this number.
fn name<M: Makes>(alloc: Global, at: u32) -> Result<M::Tree, AllocError> {
    M::variable(alloc, at, word(alloc, "n")?, None)
}

/// An import of one token, which stands before the one of this number.
fn import<M: Makes>(alloc: Global, at: u32) -> Result<M::Tree, AllocError> {
    M::import(alloc, at, Source::Missing, None, Mode::Code)
}

/// `(a + b) + c`
fn sum<M: Makes>(alloc: Global) -> Result<M::Tree, AllocError> {
    let left = M::operation(
        alloc,
        4,
        BinOp::Plus,
        name::<M>(alloc, 2)?,
        name::<M>(alloc, 4)?,
    )?;
    let left = M::brackets(alloc, 4, left)?;
    M::operation(alloc, 7, BinOp::Plus, left, name::<M>(alloc, 7)?)
}

/// `let a = 1 let b : T = 2 in a`
fn lets<M: Makes>(alloc: Global) -> Result<M::Tree, AllocError> {
    let one = M::natural(alloc, 3, 1)?;
    let outer = M::add_let(alloc, 4, None, word(alloc, "a")?, M::untyped(4), one)?;
    let note = M::typed(alloc, 8, name::<M>(alloc, 8)?)?;
    let two = M::natural(alloc, 9, 2)?;
    let both = M::add_let(alloc, 10, Some(outer), word(alloc, "b")?, note, two)?;
    M::around(alloc, 12, both, name::<M>(alloc, 12)?)
}

/// `{ x, a.b.c = 1 }`
fn entries<M: Makes>(alloc: Global) -> Result<M::Tree, AllocError> {
    let first = M::add_entry(alloc, 2, None, M::alone(alloc, 2, key(alloc, "x")?)?)?;
    let mut keys = Keys::one(alloc, key(alloc, "a")?);
    keys.push(key(alloc, "b")?)?;
    keys.push(key(alloc, "c")?)?;
    let one = M::natural(alloc, 9, 1)?;
    let second = M::given(alloc, 10, keys, one)?;
    let both = M::add_entry(alloc, 10, Some(first), second)?;
    M::record_of(alloc, 10, false, both, false)
}

/// `{ b = ./x, a = ./y, b = ./z }`
fn joined<M: Makes>(alloc: Global) -> Result<M::Tree, AllocError> {
    let b = Keys::one(alloc, key(alloc, "b")?);
    let first = M::given(alloc, 4, b, import::<M>(alloc, 4)?)?;
    let a = Keys::one(alloc, key(alloc, "a")?);
    let second = M::given(alloc, 8, a, import::<M>(alloc, 8)?)?;
    let b = Keys::one(alloc, key(alloc, "b")?);
    let third = M::given(alloc, 12, b, import::<M>(alloc, 12)?)?;
    let so_far = M::add_entry(alloc, 4, None, first)?;
    let so_far = M::add_entry(alloc, 8, Some(so_far), second)?;
    let all = M::add_entry(alloc, 12, Some(so_far), third)?;
    M::record_of(alloc, 12, false, all, false)
}

/// `{ b : T, a : U }`
fn fields<M: Makes>(alloc: Global) -> Result<M::Tree, AllocError> {
    let b = M::add_field(alloc, 4, None, key(alloc, "b")?, name::<M>(alloc, 4)?)?;
    let both = M::add_field(alloc, 8, Some(b), key(alloc, "a")?, name::<M>(alloc, 8)?)?;
    M::record_type(alloc, 8, false, both, false)
}

/// `merge h u : T`
fn merge<M: Makes>(alloc: Global) -> Result<M::Tree, AllocError> {
    let merged = M::merging(alloc, 3, name::<M>(alloc, 2)?, name::<M>(alloc, 3)?)?;
    M::noting(alloc, 5, merged, name::<M>(alloc, 5)?)
}

/// `[ ./a as Text, "${./b}" ]`
fn list<M: Makes>(alloc: Global) -> Result<M::Tree, AllocError> {
    let path = Source::Path(Loc::Missing);
    let first = M::import(alloc, 3, path, None, Mode::Text)?;
    let items = M::add_item(alloc, 4, None, first)?;
    let start = M::start(alloc, 6, None)?;
    let chunks = M::more_chunks(alloc, 8, start, import::<M>(alloc, 8)?, None)?;
    let text = M::text(alloc, 9, TextForm::DoubleQuoted, chunks)?;
    let items = M::add_item(alloc, 10, Some(items), text)?;
    M::list(alloc, 10, false, items, false)
}

/// Tokens that stand there.
fn tokens(alloc: Global, places: &[(u32, u32)]) -> Result<Vec<Token>, AllocError> {
    let mut tokens = Vec::new(alloc);
    for (from, to) in places {
        tokens.push(Token {
            kind: TokenKind::End,
            from: *from,
            to: *to,
            gap: false,
        })?;
    }
    Ok(tokens)
}

/// Each stretch, and in brackets those of its parts.
fn show(alloc: Global, spans: &Many<Span>, shown: &mut String) -> Result<(), AllocError> {
    for span in spans.as_slice() {
        let place = format!(in alloc; " {}-{}(", span.from, span.to)?;
        shown.push_str(place.as_str())?;
        show(alloc, &span.parts, shown)?;
        shown.push_str(")")?;
    }
    Ok(())
}

/// The stretches of the nodes of what is made of tokens that stand there.
fn stretches_of(
    alloc: Global,
    made: Placed<VecDeque<Span>>,
    places: &[(u32, u32)],
) -> Result<String, AllocError> {
    let tokens = tokens(alloc, places)?;
    let spans = in_text(alloc, tokens.as_slice(), made.nodes)?;
    let mut shown = String::new(alloc);
    show(alloc, &spans, &mut shown)?;
    Ok(shown)
}

const SUM: [(u32, u32); 7] = [(0, 1), (1, 2), (3, 4), (5, 6), (6, 7), (8, 9), (10, 11)];

const LETS: [(u32, u32); 12] = [
    (0, 3),
    (4, 5),
    (6, 7),
    (8, 9),
    (10, 13),
    (14, 15),
    (16, 17),
    (18, 19),
    (20, 21),
    (22, 23),
    (24, 26),
    (27, 28),
];

const ENTRIES: [(u32, u32); 11] = [
    (0, 1),
    (2, 3),
    (3, 4),
    (5, 6),
    (6, 7),
    (7, 8),
    (8, 9),
    (9, 10),
    (11, 12),
    (13, 14),
    (15, 16),
];

const JOINED: [(u32, u32); 13] = [
    (0, 1),
    (2, 3),
    (4, 5),
    (6, 9),
    (9, 10),
    (11, 12),
    (13, 14),
    (15, 18),
    (18, 19),
    (20, 21),
    (22, 23),
    (24, 27),
    (28, 29),
];

const FIELDS: [(u32, u32); 9] = [
    (0, 1),
    (2, 3),
    (4, 5),
    (6, 7),
    (7, 8),
    (9, 10),
    (11, 12),
    (13, 14),
    (15, 16),
];

const MERGE: [(u32, u32); 5] = [(0, 5), (6, 7), (8, 9), (10, 11), (12, 13)];

const LIST: [(u32, u32); 11] = [
    (0, 1),
    (2, 5),
    (6, 8),
    (9, 13),
    (13, 14),
    (15, 16),
    (16, 18),
    (18, 21),
    (21, 22),
    (22, 23),
    (24, 25),
];

#[test]
fn nodes_stand_there(rt: HostRuntime) -> Result<(), Fail> {
    let alloc = rt.alloc();
    let shown = [
        stretches_of(alloc, sum::<Places<Stretches>>(alloc)?, &SUM)?,
        stretches_of(alloc, lets::<Places<Stretches>>(alloc)?, &LETS)?,
        stretches_of(alloc, entries::<Places<Stretches>>(alloc)?, &ENTRIES)?,
        stretches_of(alloc, joined::<Places<Stretches>>(alloc)?, &JOINED)?,
        stretches_of(alloc, fields::<Places<Stretches>>(alloc)?, &FIELDS)?,
        stretches_of(alloc, merge::<Places<Stretches>>(alloc)?, &MERGE)?,
        stretches_of(alloc, list::<Places<Stretches>>(alloc)?, &LIST)?,
    ];
    let wanted = [
        " 0-11( 1-6( 1-2() 5-6()) 10-11())",
        " 0-28( 8-9() 10-28( 18-19() 22-23() 27-28()))",
        " 0-16( 7-14( 9-14( 13-14())) 2-3())",
        " 0-29( 15-18() 2-27( 6-9() 24-27()))",
        " 0-16( 13-14() 6-7())",
        " 0-13( 6-7() 8-9() 12-13())",
        " 0-25( 2-13() 15-23( 18-21()))",
    ];
    for (shown, wanted) in shown.iter().zip(wanted.iter()) {
        assert_eq!(rt; shown.as_str(), *wanted);
    }
    Ok(())
}

#[test]
fn imports_stand_there(rt: HostRuntime) -> Result<(), Fail> {
    let alloc = rt.alloc();
    let made = joined::<Places<Locations>>(alloc)?;
    let offsets = offsets_after(alloc, tokens(alloc, &JOINED)?.as_slice(), made.nodes)?;
    assert_eq!(rt; offsets.as_slice(), [18, 9, 27].as_slice());
    let made = list::<Places<Locations>>(alloc)?;
    let offsets = offsets_after(alloc, tokens(alloc, &LIST)?.as_slice(), made.nodes)?;
    assert_eq!(rt; offsets.as_slice(), [5, 21].as_slice());
    let made = lets::<Places<Locations>>(alloc)?;
    let offsets = offsets_after(alloc, tokens(alloc, &LETS)?.as_slice(), made.nodes)?;
    assert_eq!(rt; offsets.len(), 0);
    Ok(())
}
