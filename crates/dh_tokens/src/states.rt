//! How far the reading of tokens has come.
ghost use Rattle.std.specs.Prelude.{◌≡◌, ◌+◌, ◌^◌, ◌<◌, false, true, Some};
ghost use Rattle.std.specs.Result.{result_map_both};
ghost use Rattle.dh_syntax.specs.Text.LexForms.{Is};
ghost use Rattle.dh_syntax.specs.Text.Lexing.{before_after, before_after_white, is_wide_index, start, step_at, token_step};
ghost use Rattle.dh_tokens.specs.Inside.Forms.{form_of, found_of, IsSound};
ghost use Rattle.dh_tokens.specs.Inside.Places.{IsRooted, MayStand, place_of};
ghost use Rattle.dh_tokens.specs.Inside.SmallForms.{small_kind};
ghost use Rattle.dh_tokens.specs.Inside.States.{StepIs, before_of, state_of};

use crate::faults::LexFault;
use crate::forms::{Form, Found};
use crate::places::Place;
use crate::small_forms::Small;
use dh_syntax::{Mark, Token, TokenKind};
use std::alloc::Global;
use std::mem;

/// The least number that is no index.
const INDEX_END: u128 = 1 << 31;

/// What stands before a place, white space aside.
#[derive(Clone, Copy, Debug)]
pub enum Before {
    /// Nothing but skipped lines.
    Start,
    AName,
    /// A name and `@`.
    NameAt,
    Other,
}

/// What the reading knows at a place.
#[derive(Debug, Drop)]
pub struct State {
    pub place: Place,
    pub before: Before,
    /// Whether white space stands directly before, or nothing but skipped lines.
    pub gap: bool,
}

impl State {
    /// The start of a text.
    pub fn start(alloc: Global) -> State
        ensures value { state_of result ≡ start }
        ensures rooted { IsRooted result.place.open.items }
    {
        State {
            place: Place::outside(alloc),
            before: Before::Start,
            gap: true,
        }
    }

    /// Passes the form that stands at an offset: the token that it is, if it is one, or its fault.
    pub fn pass(&mut self, at: usize, mut form: Form) -> Result<Option<Token>, LexFault>
        requires small { at + form.len < 2 ^ 32 }
        requires rooted { IsRooted self.old.place.open.items }
        requires may_stand { MayStand (place_of self.old.place) (found_of form.found) }
        requires sound { IsSound (form_of form) }
        ensures value { StepIs result (state_of self.new) form.len (step_at (state_of self.old) at (form_of form)) }
        ensures rooted { IsRooted self.new.place.open.items }
    {
        let from = at as u32;
        match &mut form.found {
            Found::White => {
                self.pass_white();
                Ok(None)
            }
            Found::SkippedLine => Ok(None),
            Found::Is(kind) => {
                let kind = mem::replace(kind, TokenKind::End);
                match self.pass_token(kind, from, form.len as u32) {
                    Ok(token) => Ok(Some(token)),
                    Err(fault) => Err(fault),
                }
            }
            Found::LeftOut => Err(LexFault::Out(from)),
            Found::TooWide => Err(LexFault::Wide(from)),
            Found::Faulty(further) => Err(LexFault::Bad(from + *further as u32)),
            Found::Unclosed => Err(LexFault::Bad(self.place.opened(from))),
        }
    }

    /// Passes white space or a comment.
    pub fn pass_white(&mut self)
        ensures place { self.new.place ≡ self.old.place }
        ensures before { before_of self.new.before ≡ before_after_white (before_of self.old.before) }
        ensures gap { self.new.gap ≡ true }
    {
        if let Before::Start = self.before {
            self.before = Before::Other;
        }
        self.gap = true;
    }

    /// Passes the token of a small form.
    pub fn pass_small(&mut self, small: Small<'_>)
        ensures place { self.new.place ≡ self.old.place }
        ensures before { before_of self.new.before ≡ before_after (small_kind small.entry) (before_of self.old.before) }
        ensures gap { self.new.gap ≡ false }
    {
        self.before = match (small, self.before) {
            (Small::Name(_), _) => Before::AName,
            (Small::Mark(Mark::At), Before::AName) => Before::NameAt,
            _ => Before::Other,
        };
        self.gap = false;
    }

    /// Passes a token of so many bytes at an offset.
    fn pass_token(&mut self, kind: TokenKind, from: u32, len: u32) -> Result<Token, LexFault>
        requires small { from + len < 2 ^ 32 }
        requires rooted { IsRooted self.old.place.open.items }
        requires may_stand { MayStand (place_of self.old.place) (Is kind) }
        ensures value { StepIs (result_map_both Some (λ f. f) result) (state_of self.new) len (token_step (state_of self.old) from kind len) }
        ensures rooted { IsRooted self.new.place.open.items }
    {
        if self.before.makes_wide(&kind) {
            return Err(LexFault::Wide(from));
        }
        self.place.pass(&kind, from)?;
        self.before = self.before.after(&kind);
        let gap = self.gap;
        self.gap = false;
        Ok(Token {
            kind,
            from,
            to: from + len,
            gap,
        })
    }
}

impl Before {
    /// What stands before the place after a token.
    fn after(self, kind: &TokenKind) -> Before
        ensures { before_of result ≡ before_after kind.now (before_of self) }
    {
        match (kind, self) {
            (TokenKind::Name(_) | TokenKind::Quoted(_), _) => Before::AName,
            (TokenKind::Mark(Mark::At), Before::AName) => Before::NameAt,
            _ => Before::Other,
        }
    }

    /// Whether a token is an index beyond its range: 2^31 or more, behind a name and `@`.
    fn makes_wide(self, kind: &TokenKind) -> bool
        ensures { result ≡ is_wide_index (before_of self) kind.now }
    {
        match (self, kind) {
            (Before::NameAt, TokenKind::Natural(n)) => *n >= INDEX_END,
            _ => false,
        }
    }
}
