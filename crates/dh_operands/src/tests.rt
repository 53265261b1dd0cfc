//! Operands built one after another: each is made, binds as tightly and nests as deep as it should.

use crate::{Expressions, Operand};
use dh_making::{EntryKey, Keys, Makes, Projection, Source, Word};
use dh_syntax::{Label, Mode, TextForm};
use std::alloc::{AllocError, Global};
use std::test::Fail;

fn plain(alloc: Global, name: &str) -> Result<Word, AllocError> {
    Ok(Word::Plain(Label::new(alloc, name)?))
}

fn key(alloc: Global, name: &str) -> Result<EntryKey, AllocError> {
    Ok(EntryKey::Name(plain(alloc, name)?))
}

fn number<M: Makes>(alloc: Global) -> Result<M::Tree, AllocError> {
    M::natural(alloc, 0, 1)
}

/// `{ b = 1, b.c = 1, a }`
fn joined_entries<M: Makes>(a: Global) -> Result<M::Tree, AllocError> {
    let given = M::given(a, 0, Keys::one(a, key(a, "b")?), number::<M>(a)?)?;
    let entries = M::add_entry(a, 0, None, given)?;
    let mut keys = Keys::one(a, key(a, "b")?);
    keys.push(key(a, "c")?)?;
    let given = M::given(a, 0, keys, number::<M>(a)?)?;
    let entries = M::add_entry(a, 0, Some(entries), given)?;
    let alone = M::alone(a, 0, key(a, "a")?)?;
    let entries = M::add_entry(a, 0, Some(entries), alone)?;
    M::record_of(a, 0, false, entries, false)
}

/// `{ b : 1, a : 1 }`
fn fields<M: Makes>(a: Global) -> Result<M::Tree, AllocError> {
    let fields = M::add_field(a, 0, None, key(a, "b")?, number::<M>(a)?)?;
    let fields = M::add_field(a, 0, Some(fields), key(a, "a")?, number::<M>(a)?)?;
    M::record_type(a, 0, false, fields, false)
}

/// `< B : 1 | A >`
fn union<M: Makes>(a: Global) -> Result<M::Tree, AllocError> {
    let note = M::typed(a, 0, number::<M>(a)?)?;
    let typed = M::add_alternative(a, 0, None, key(a, "B")?, note)?;
    let all = M::add_alternative(a, 0, Some(typed), key(a, "A")?, M::untyped(0))?;
    M::union(a, 0, false, all, false)
}

/// `let x : 1 = 1 let x = 1 in 1`
fn nested_lets<M: Makes>(a: Global) -> Result<M::Tree, AllocError> {
    let note = M::typed(a, 0, number::<M>(a)?)?;
    let lets = M::add_let(a, 0, None, plain(a, "x")?, note, number::<M>(a)?)?;
    let value = number::<M>(a)?;
    let lets = M::add_let(a, 0, Some(lets), plain(a, "x")?, M::untyped(0), value)?;
    M::around(a, 0, lets, number::<M>(a)?)
}

/// `merge 1 1 : 1`
fn annotated_merge<M: Makes>(a: Global) -> Result<M::Tree, AllocError> {
    let merge = M::merging(a, 0, number::<M>(a)?, number::<M>(a)?)?;
    M::noting(a, 0, merge, number::<M>(a)?)
}

/// `(toMap 1) : 1`
fn annotated_brackets<M: Makes>(a: Global) -> Result<M::Tree, AllocError> {
    let map = M::to_map(a, 0, number::<M>(a)?)?;
    let map = M::brackets(a, 0, map)?;
    M::noting(a, 0, map, number::<M>(a)?)
}

/// `[ "${x.{ b, a }.c}" ]`
fn selections<M: Makes>(a: Global) -> Result<M::Tree, AllocError> {
    let projection = Projection::one(a, key(a, "b")?)?.add(a, key(a, "a")?)?;
    let variable = M::variable(a, 0, plain(a, "x")?, None)?;
    let projected = M::project(a, 0, variable, false, projection, false)?;
    let selected = M::field(a, 0, projected, key(a, "c")?)?;
    let chunks = M::start(a, 0, None)?;
    let chunks = M::more_chunks(a, 0, chunks, selected, None)?;
    let text = M::text(a, 0, TextForm::DoubleQuoted, chunks)?;
    let items = M::add_item(a, 0, None, text)?;
    M::list(a, 0, false, items, false)
}

/// `1 missing as Text`
fn import<M: Makes>(a: Global) -> Result<M::Tree, AllocError> {
    let text = M::import(a, 0, Source::Missing, None, Mode::Text)?;
    M::application(a, 0, number::<M>(a)?, text)
}

/// `Some (Some ( .. ))`, which nests too deep to be kept.
fn deep<M: Makes>(a: Global) -> Result<M::Tree, AllocError> {
    let mut found = number::<M>(a)?;
    for _ in 0..501 {
        found = M::some_of(a, 0, found)?;
    }
    Ok(found)
}

#[test]
fn builds_operands_of_each_kind(rt: HostRuntime) -> Result<(), Fail> {
    let a = rt.alloc();
    let rows: [(Operand, u32, u32); 9] = [
        (joined_entries::<Expressions>(a)?, 17, 3),
        (fields::<Expressions>(a)?, 17, 1),
        (union::<Expressions>(a)?, 17, 1),
        (nested_lets::<Expressions>(a)?, 0, 2),
        (annotated_merge::<Expressions>(a)?, 0, 1),
        (annotated_brackets::<Expressions>(a)?, 0, 2),
        (selections::<Expressions>(a)?, 17, 4),
        (import::<Expressions>(a)?, 14, 1),
        (deep::<Expressions>(a)?, 14, 501),
    ];
    for (operand, level, nests) in &rows {
        assert_eq!(rt; Expressions::binds(0, operand), *level);
        assert_eq!(rt; operand.part.nests, *nests);
    }
    Ok(())
}
