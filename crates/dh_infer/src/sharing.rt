//! One code for codes that stand for one expression.
//!
//! What is normalised is written anew each time. So that what is kept of a code is found again, each code that is made has the number
//! of the first one like it. A code that is like an older one may be missed; then it stands for itself.

ghost use Rattle.std.specs.Prelude.{◌≡◌, ◌<◌, ℕ, true, [], length, IfOk, IfSome, OnOk, slice_get};
ghost use Rattle.dh_syntax.specs.Names.Nameless.{Core};
ghost use Rattle.dh_store.specs.Cells.{code_row, AreCoded};
ghost use Rattle.dh_store.specs.Growth.{count};
ghost use Rattle.dh_infer.specs.Inside.Scopes.{Models};
ghost use Rattle.dh_infer.specs.Inside.Sharing.{AreShared, IsShareOf};

use crate::forms::{Form, form_of};
use dh_store::{Code, CodeId, CodeKid, Codes};
use dh_syntax::{Alt, Label, Op};
use dh_terms::{is_same_label, is_same_op};
use dh_types::{Memo, shown};
use std::alloc::{AllocError, Global};

/// The number of the first code like it, for each code so far; and for each key the last code that had it and is like no older one.
#[derive(Drop)]
pub(crate) struct Sharing {
    pub(crate) firsts: Vec<CodeId>,
    last: Memo<CodeId>,
}

// ---- keys: codes that are alike have the same one, and few others have it

/// The prime of the 32-bit FNV hash (Fowler, Noll and Vo).
const FNV_PRIME: u32 = 16_777_619;

/// What comes behind a text: no byte is so large.
const TEXT_END: u32 = 256;

/// What a key begins with, by what it is of: different kinds of codes so seldom have the same key.
const OF_BUILTIN: u32 = 1;

const OF_LARGE_NUMBER: u32 = 2;

const OF_PI: u32 = 3;

const OF_APPLICATION: u32 = 4;

const OF_SOME: u32 = 5;

const OF_LIST: u32 = 6;

const OF_LAMBDA: u32 = 7;

const OF_RECORD_TYPE: u32 = 8;

const OF_RECORD: u32 = 9;

const OF_FIELD: u32 = 10;

const OF_LONG_TEXT: u32 = 11;

const OF_OTHERS: u32 = 12;

const OF_PARTS: u32 = 13;

const OF_BOUND: u32 = 14;

const OF_FREE: u32 = 15;

const OF_UNION: u32 = 19;

fn mixed(key: u32, n: u32) -> u32 {
    key.wrapping_mul(FNV_PRIME).wrapping_add(n)
}

fn text_key(key: u32, text: &str) -> u32 {
    let mut key = key;
    for byte in text.as_bytes() {
        key = mixed(key, u32::from(*byte));
    }
    mixed(key, TEXT_END)
}

fn labels_key(key: u32, labels: &[Label]) -> u32 {
    let mut key = key;
    for label in labels {
        key = text_key(key, label.as_str());
    }
    key
}

fn alternatives_key(alternatives: &[Alt]) -> u32 {
    let mut key = OF_UNION;
    for alternative in alternatives {
        key = text_key(key, alternative.label.as_str());
    }
    key
}

fn operator_key(op: &Op) -> u32 {
    match op {
        Op::Builtin(builtin) => text_key(OF_BUILTIN, builtin.name()),
        Op::Bool(value) => u32::from(*value),
        Op::Nat(n) => u32::try_from(*n).unwrap_or(OF_LARGE_NUMBER),
        Op::Pi => OF_PI,
        Op::App => OF_APPLICATION,
        Op::Some => OF_SOME,
        Op::List => OF_LIST,
        Op::Lam => OF_LAMBDA,
        Op::RecordType(labels) => labels_key(OF_RECORD_TYPE, labels.as_slice()),
        Op::Record(labels) => labels_key(OF_RECORD, labels.as_slice()),
        Op::Union(alternatives) => alternatives_key(alternatives.as_slice()),
        Op::Field(label) => text_key(OF_FIELD, label.as_str()),
        Op::Text(pieces) => u32::try_from(pieces.as_slice().len()).unwrap_or(OF_LONG_TEXT),
        _ => OF_OTHERS,
    }
}

fn kids_key(firsts: &[CodeId], kids: &[CodeKid]) -> u32 {
    let mut key = OF_PARTS;
    for kid in kids {
        if let Some(first) = firsts.get(kid.code as usize) {
            key = mixed(key, *first);
        }
    }
    key
}

fn key_of(firsts: &[CodeId], code: &Code) -> (u32, u32) {
    match code {
        Code::Bound(index) => (OF_BOUND, *index),
        Code::Free(name, index) => (text_key(OF_FREE, name.as_str()), *index),
        Code::Node(op, kids) => (operator_key(op), kids_key(firsts, kids.as_slice())),
    }
}

// ---- whether two codes are alike

/// The first code like this one, of these.
fn first_at(firsts: &[CodeId], code: CodeId) -> Option<CodeId>
    ensures { result ≡ slice_get firsts.now code }
{
    match firsts.get(code as usize) {
        Some(first) => Some(*first),
        None => None,
    }
}

/// Whether both parts have the same binder, or none.
fn are_named(binder: &Option<Label>, other: &Option<Label>) -> bool
    ensures { result ≡ true → binder.now ≡ other.now }
{
    match (binder, other) {
        (Some(x), Some(y)) => is_same_label(x, y),
        (None, None) => true,
        _ => false,
    }
}

/// Whether two codes have the same first one.
fn have_one_first(firsts: &[CodeId], code: CodeId, other: CodeId) -> bool
    ensures { result ≡ true → (g : ℕ → Core) → AreShared g firsts.now → g code ≡ g other }
{
    match (first_at(firsts, code), first_at(firsts, other)) {
        (Some(first), Some(second)) => first == second,
        _ => false,
    }
}

/// Whether two parts are alike.
fn is_same_kid(firsts: &[CodeId], kid: &CodeKid, other: &CodeKid) -> bool
    ensures binder { result ≡ true → kid.now.binder ≡ other.now.binder }
    ensures code { result ≡ true → (g : ℕ → Core) → AreShared g firsts.now → g kid.now.code ≡ g other.now.code }
{
    are_named(&kid.binder, &other.binder) && have_one_first(firsts, kid.code, other.code)
}

/// Whether the parts of two nodes are alike.
fn are_same_kids(firsts: &[CodeId], kids: &[CodeKid], others: &[CodeKid]) -> bool
    ensures { result ≡ true → (g : ℕ → Core) → AreShared g firsts.now → code_row g kids.now ≡ code_row g others.now }
{
    if kids.len() != others.len() {
        return false;
    }
    for i in 0..kids.len() {
        if !is_same_kid(firsts, &kids[i], &others[i]) {
            return false;
        }
    }
    true
}

/// Whether two nodes are alike.
fn are_same_nodes(codes: &Codes, firsts: &[CodeId], code: CodeId, other: CodeId) -> bool
    requires coded { AreCoded codes.now }
    requires code { code < count codes.now }
    requires other { other < count codes.now }
    ensures { result ≡ true → (g : ℕ → Core) → Models codes.now g → AreShared g firsts.now → g code ≡ g other }
{
    match (shown(codes, code), shown(codes, other)) {
        (Some((op, kids)), Some((another, others))) => {
            is_same_op(op, another) && are_same_kids(firsts, kids, others)
        }
        _ => false,
    }
}

/// Whether two codes are alike.
fn are_same(codes: &Codes, firsts: &[CodeId], code: CodeId, other: CodeId) -> bool
    requires coded { AreCoded codes.now }
    requires code { code < count codes.now }
    requires other { other < count codes.now }
    ensures { result ≡ true → (g : ℕ → Core) → Models codes.now g → AreShared g firsts.now → g code ≡ g other }
{
    match (form_of(codes, code), form_of(codes, other)) {
        (Form::Bound(i), Form::Bound(j)) => i == j,
        (Form::Level(m), Form::Level(n)) => m == n,
        _ => are_same_nodes(codes, firsts, code, other),
    }
}

// ---- the first code like a code

impl Sharing {
    /// Nothing yet.
    pub(crate) fn new(alloc: Global) -> Sharing
        ensures { result.firsts.items ≡ [] }
    {
        Sharing {
            firsts: Vec::new(alloc),
            last: Memo::new(alloc),
        }
    }

    /// The code like the one with this number that had this key last, which is older.
    fn older(&self, codes: &Codes, key: (u32, u32), code: CodeId) -> Option<CodeId>
        requires coded { AreCoded codes.now }
        requires there { code < count codes.now }
        ensures { IfSome result (λ k. (g : ℕ → Core) → Models codes.now g → AreShared g self.now.firsts.items → IsShareOf g code k) }
    {
        match self.last.get(key.0, key.1) {
            Some(older) => {
                if older < code && are_same(codes, self.firsts.as_slice(), older, code) {
                    Some(older)
                } else {
                    None
                }
            }
            None => None,
        }
    }

    /// The number of the next code.
    fn next(&self) -> Result<u32, AllocError>
        ensures { IfOk result (λ n. n ≡ length self.now.firsts.items) }
    {
        u32::try_from(self.firsts.len()).ok().ok_or(AllocError)
    }

    /// The first code like the one with this number, which has this key.
    #[tactic(auto, using(crate::proofs::AlikeCodes::shares_itself))]
    fn first_like(
        &mut self,
        codes: &Codes,
        key: (u32, u32),
        code: CodeId,
    ) -> Result<CodeId, AllocError>
        requires coded { AreCoded codes.now }
        requires there { code < count codes.now }
        ensures same { self.new.firsts ≡ self.old.firsts }
        ensures share { IfOk result (λ k. (g : ℕ → Core) → Models codes.now g → AreShared g self.old.firsts.items → IsShareOf g code k) }
    {
        match self.older(codes, key, code) {
            Some(older) => Ok(older),
            None => {
                self.last.put(key.0, key.1, code)?;
                Ok(code)
            }
        }
    }

    /// Takes the next code.
    fn add(&mut self, codes: &Codes) -> Result<(), AllocError>
        requires coded { AreCoded codes.now }
        ensures { OnOk result ((g : ℕ → Core) → Models codes.now g → AreShared g self.old.firsts.items → AreShared g self.new.firsts.items) }
    {
        let next = self.next()?;
        let Some(code) = codes.get(next) else {
            return Err(AllocError);
        };
        let key = key_of(self.firsts.as_slice(), code);
        let first = self.first_like(codes, key, next)?;
        self.firsts.push(first)?;
        Ok(())
    }

    /// The first code like this one, if that is known, or else the code itself.
    pub(crate) fn seen(&self, code: CodeId) -> CodeId
        ensures { (g : ℕ → Core) → AreShared g self.now.firsts.items → g result ≡ g code }
    {
        match first_at(self.firsts.as_slice(), code) {
            Some(first) => first,
            None => code,
        }
    }

    /// The first code like this one. Each code that was made since is looked at once.
    pub(crate) fn first(&mut self, codes: &Codes, code: CodeId) -> Result<CodeId, AllocError>
        requires coded { AreCoded codes.now }
        requires there { code < count codes.now }
        ensures shared { OnOk result ((g : ℕ → Core) → Models codes.now g → AreShared g self.old.firsts.items → AreShared g self.new.firsts.items) }
        ensures ok { IfOk result (λ k. (g : ℕ → Core) → Models codes.now g → AreShared g self.old.firsts.items → IsShareOf g code k) }
    {
        'codes: for _ in self.firsts.len()..code as usize + 1 {
            self.add(codes)?;
        }
        match first_at(self.firsts.as_slice(), code) {
            Some(first) => Ok(first),
            None => Err(AllocError),
        }
    }
}
