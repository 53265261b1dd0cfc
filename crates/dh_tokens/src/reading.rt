//! The tokens of a text, one form after the other.
ghost use Rattle.std.specs.Prelude.{◌≡◌, ◌^◌, ◌<◌, ◌≤◌, ◌+◌, ◌-◌, ◌↔◌, length, drop, None, Ok, IfOk, IfErr, IfSome, IsTrue};
ghost use Rattle.std.specs.List.{prefix_len};
ghost use Rattle.dh_syntax.specs.Text.Lexing.{Start, Outside, end_at, form_at, form_or, lex, no_form, tokens_from};
ghost use Rattle.dh_syntax.specs.Text.LexTexts.{text_part};
ghost use Rattle.dh_tokens.specs.Inside.Forms.{form_of, EndsCharacter, IsWithin};
ghost use Rattle.dh_tokens.specs.Inside.LongestForms.{front_form, interpolated_form};
ghost use Rattle.dh_tokens.specs.Inside.Places.{EndsAmong, IsRooted, IsWhole, place_of, placed};
ghost use Rattle.dh_tokens.specs.Inside.SmallForms.{TakesSmall, is_blank, small};
ghost use Rattle.dh_tokens.specs.Reading.{EndIs, IsFault, onto};
ghost use Rattle.dh_tokens.specs.Inside.States.{IsReady, before_of, state_of};

use crate::characters::{after, byte_at};
use crate::faults::LexFault;
use crate::forms::{Form, Found};
use crate::fronts::{code_form, no_form};
use crate::gaps::skipped_line;
use crate::places::{Open, Place};
use crate::small_forms::{Small, small_form};
use crate::states::{Before, State};
use crate::texts::text_part;
use dh_syntax::{Many, TextForm, Token, TokenKind};
use std::alloc::{AllocError, Global};

/// The tokens of a text, ended by `End` at its length.
pub type Tokens = Many<Token>;

/// The form at the front outside the characters of texts.
fn code(alloc: Global, rest: &[u8]) -> Result<Form, AllocError>
    requires some { 0 < length rest.now }
    ensures value { IfOk result (λ f. form_of f ≡ front_form rest.now) }
    ensures within { IfOk result (λ f. IsWithin f (length rest.now)) }
{
    match code_form(alloc, rest)? {
        Some(form) => Ok(form),
        None => Ok(no_form(rest)),
    }
}

/// The form at the front among the characters of a text.
fn characters(alloc: Global, form: TextForm, rest: &str) -> Result<Form, AllocError>
    requires some { 0 < length rest.now }
    ensures value { IfOk result (λ f. form_of f ≡ form_or (text_part form rest.now) (no_form rest.now)) }
    ensures within { IfOk result (λ f. IsWithin f (length rest.now)) }
    ensures whole { IfOk result (λ f. EndsCharacter f.found f.len rest.now) }
{
    match text_part(alloc, form, rest)? {
        Some(form) => Ok(form),
        None => Ok(no_form(rest.as_bytes())),
    }
}

/// The form at the start of a text, where a line may be skipped.
fn at_start(alloc: Global, rest: &[u8]) -> Result<Form, AllocError>
    requires some { 0 < length rest.now }
    ensures value { IfOk result (λ f. form_of f ≡ form_at Start Outside rest.now) }
    ensures within { IfOk result (λ f. IsWithin f (length rest.now)) }
{
    if rest.starts_with(b"#!") {
        Ok(skipped_line(rest))
    } else {
        code(alloc, rest)
    }
}

/// The form at the front outside every text.
fn outside(alloc: Global, before: Before, rest: &[u8]) -> Result<Form, AllocError>
    requires some { 0 < length rest.now }
    ensures value { IfOk result (λ f. form_of f ≡ form_at (before_of before) Outside rest.now) }
    ensures within { IfOk result (λ f. IsWithin f (length rest.now)) }
{
    match before {
        Before::Start => at_start(alloc, rest),
        Before::AName => code(alloc, rest),
        Before::NameAt => code(alloc, rest),
        Before::Other => code(alloc, rest),
    }
}

/// The form at the front in an interpolation in which no brace is open.
fn interpolated(alloc: Global, rest: &[u8]) -> Result<Form, AllocError>
    requires some { 0 < length rest.now }
    ensures value { IfOk result (λ f. form_of f ≡ interpolated_form rest.now) }
    ensures within { IfOk result (λ f. IsWithin f (length rest.now)) }
{
    if byte_at(rest, 0) == b'}' {
        let found = Found::Is(TokenKind::InterpolationClose);
        return Ok(Form { found, len: 1 });
    }
    code(alloc, rest)
}

/// The form at the front between the characters of texts.
fn between(alloc: Global, before: Before, opened: &[Open], rest: &[u8]) -> Result<Form, AllocError>
    requires some { 0 < length rest.now }
    requires rooted { IsRooted opened.now }
    ensures value { IfOk result (λ f. form_of f ≡ form_at (before_of before) (placed None opened.now) rest.now) }
    ensures within { IfOk result (λ f. IsWithin f (length rest.now)) }
{
    match opened.last() {
        None => outside(alloc, before, rest),
        Some(Open::Interpolation(_)) => interpolated(alloc, rest),
        Some(Open::Brace) => code(alloc, rest),
    }
}

/// The form at an offset.
fn form_at(alloc: Global, state: &State, text: &str, at: usize) -> Result<Form, AllocError>
    requires within { at < length text.now }
    requires rooted { IsRooted state.now.place.open.items }
    requires whole { IsWhole (place_of state.now.place) at text.now }
    ensures value { IfOk result (λ f. form_of f
        ≡ form_at (before_of state.now.before) (place_of state.now.place) (drop at text.now)) }
    ensures within { IfOk result (λ f. IsWithin f (length text.now - at)) }
    ensures whole { IfOk result (λ f. EndsAmong (place_of state.now.place) f.found f.len (drop at text.now)) }
{
    match state.place.among {
        Some(literal) => characters(alloc, literal.form, &text[at..]),
        None => {
            let rest = after(text.as_bytes(), at);
            between(alloc, state.before, state.place.open.as_slice(), rest)
        }
    }
}

/// Whether a place stands outside every text.
fn is_outside(place: &Place) -> bool
    requires rooted { IsRooted place.now.open.items }
    ensures { IsTrue result ↔ (place_of place.now ≡ Outside) }
{
    place.among.is_none() && place.open.is_empty()
}

/// The end token at an offset, where no text is open there.
fn end(state: &State, at: usize) -> Result<Token, LexFault>
    requires small { at < 2 ^ 32 }
    requires rooted { IsRooted state.now.place.open.items }
    ensures { EndIs result (end_at (state_of state.now) at (place_of state.now.place)) }
{
    let at = at as u32;
    if !is_outside(&state.place) {
        return Err(LexFault::Bad(state.place.opened(at)));
    }
    Ok(Token {
        kind: TokenKind::End,
        from: at,
        to: at,
        gap: state.gap,
    })
}

/// Reads the form at an offset, and adds the token that it is, if it is one. Answers how many bytes it takes.
// Not inlined, so that what is read most often is not kept waiting by the room that large values take.
#[inline(never)]
fn read_any_form(
    alloc: Global,
    state: &mut State,
    made: &mut Tokens,
    text: &str,
    at: usize,
) -> Result<usize, LexFault>
    requires within { at < length text.now }
    requires small { length text.now < 2 ^ 32 }
    requires ready { IsReady state.old at text.now }
    ensures ready { IfOk result (λ n. IsReady state.new (at + n) text.now) }
    ensures within { IfOk result (λ n. (0 < n) × (at + n ≤ length text.now)) }
    ensures value { IfOk result (λ n. onto made.old (tokens_from (state_of state.old) 0 at (drop at text.now))
        ≡ onto made.new (tokens_from (state_of state.new) 0 (at + n) (drop (at + n) text.now))) }
    ensures fault { IfErr result (IsFault (tokens_from (state_of state.old) 0 at (drop at text.now))) }
{
    let form = form_at(alloc, state, text, at)?;
    let len = form.len;
    match state.pass(at, form) {
        Ok(None) => Ok(len),
        Ok(Some(token)) => {
            made.push(token)?;
            Ok(len)
        }
        Err(fault) => Err(fault),
    }
}

/// Whether small forms are read at a place. Behind a name and `@` a number may be too wide.
fn takes_small(state: &State) -> bool
    requires rooted { IsRooted state.now.place.open.items }
    ensures { IsTrue result → TakesSmall (state_of state.now) }
{
    match state.before {
        Before::AName | Before::Other => is_outside(&state.place),
        Before::Start | Before::NameAt => false,
    }
}

/// The small form at an offset, if one stands there and is read there, and how many bytes it takes.
fn small_at<'a>(state: &State, text: &'a str, at: usize) -> Option<(Small<'a>, usize)>
    requires within { at < length text.now }
    requires rooted { IsRooted state.now.place.open.items }
    ensures takes { IfSome result (λ m. TakesSmall (state_of state.now)) }
    ensures value { IfSome result (λ m. small m ≡ form_at (before_of state.now.before) (place_of state.now.place) (drop at text.now)) }
    ensures within { IfSome result (λ m. (0 < m.1) × (m.1 ≤ length text.now - at)) }
{
    if takes_small(state) {
        small_form(after(text.as_bytes(), at))
    } else {
        None
    }
}

/// How many blanks stand at the front.
fn blank_len(rest: &[u8]) -> usize
    ensures value { result ≡ prefix_len is_blank rest.now }
    ensures within { result ≤ length rest.now }
{
    let mut n = 0;
    for b in rest {
        if !matches!(*b, b' ' | b'\t' | b'\n') {
            break;
        }
        n += 1;
    }
    n
}

/// How many blanks stand at an offset, 0 among the characters of a text.
fn blanks_at(place: &Place, text: &str, at: usize) -> usize
    requires within { at ≤ length text.now }
    ensures blanks { result ≤ prefix_len is_blank (drop at text.now) }
    ensures within { at + result ≤ length text.now }
    ensures between { 0 < result → place.now.among ≡ None }
{
    match place.among {
        Some(_) => 0,
        None => blank_len(after(text.as_bytes(), at)),
    }
}

/// Reads the form at an offset, or the blanks there at once, and adds the token that the form is, if it is one. Answers
/// how many bytes are read.
fn read_form(
    alloc: Global,
    state: &mut State,
    made: &mut Tokens,
    text: &str,
    at: usize,
) -> Result<usize, LexFault>
    requires within { at < length text.now }
    requires small { length text.now < 2 ^ 32 }
    requires ready { IsReady state.old at text.now }
    ensures ready { IfOk result (λ n. IsReady state.new (at + n) text.now) }
    ensures within { IfOk result (λ n. (0 < n) × (at + n ≤ length text.now)) }
    ensures value { IfOk result (λ n. onto made.old (tokens_from (state_of state.old) 0 at (drop at text.now))
        ≡ onto made.new (tokens_from (state_of state.new) 0 (at + n) (drop (at + n) text.now))) }
    ensures fault { IfErr result (IsFault (tokens_from (state_of state.old) 0 at (drop at text.now))) }
{
    let blanks = blanks_at(&state.place, text, at);
    if blanks > 0 {
        state.pass_white();
        return Ok(blanks);
    }
    let Some((small, len)) = small_at(state, text, at) else {
        return read_any_form(alloc, state, made, text, at);
    };
    let token = Token {
        kind: small.kind(alloc)?,
        from: at as u32,
        to: (at + len) as u32,
        gap: state.gap,
    };
    state.pass_small(small);
    made.push(token)?;
    Ok(len)
}

/// The tokens of a text by the longest form at each place, from left to right (the lexical rules of `dhall.abnf`).
/// The fault is the first one, and has its offset in bytes.
pub fn tokens(alloc: Global, text: &str) -> Result<Tokens, LexFault>
    requires small { length text.now < 2 ^ 32 }
    ensures ok { IfOk result (λ made. lex text.now ≡ Ok made) }
    ensures fault { IfErr result (IsFault (lex text.now)) }
{
    let mut made = Many::new(alloc);
    let mut state = State::start(alloc);
    let mut at = 0;
    'forms: while at < text.len() {
        match read_form(alloc, &mut state, &mut made, text, at) {
            Ok(len) => at += len,
            Err(fault) => return Err(fault),
        }
    }
    match end(&state, at) {
        Ok(token) => {
            made.push(token)?;
            Ok(made)
        }
        Err(fault) => Err(fault),
    }
}
