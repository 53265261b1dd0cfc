//! Where a place stands among the text literals that are open.
ghost use Rattle.std.specs.Prelude.{◌≡◌, ℕ, OnOk};
ghost use Rattle.dh_syntax.specs.Text.Lexing.{Outside, opened, place_after};
ghost use Rattle.dh_syntax.specs.Text.LexForms.{Is};
ghost use Rattle.dh_syntax.specs.declared.tokens.Mark.TheVariants.{BraceClose, BraceOpen};
ghost use Rattle.dh_syntax.specs.declared.tokens.TokenKind.TheVariants as kinds;
ghost use Rattle.dh_tokens.specs.Inside.Places.{IsRooted, MayStand, place_of};

use dh_syntax::{Mark, TextForm, TokenKind};
use std::alloc::{AllocError, Global};

/// A text literal that is open: its form, and the offset in bytes at which it opened.
#[derive(Clone, Copy, Debug)]
pub struct Literal {
    pub form: TextForm,
    pub from: u32,
}

/// What is open between the characters of texts.
#[derive(Clone, Copy, Debug)]
pub enum Open {
    /// An interpolation in this literal.
    Interpolation(Literal),
    /// A brace in an interpolation.
    Brace,
}

/// The literal among whose characters a place stands, if it does, and what is open around that, outermost first.
#[derive(Debug, Drop)]
pub struct Place {
    pub among: Option<Literal>,
    pub open: Vec<Open>,
}

impl Place {
    /// The place outside every text literal. It takes no memory.
    pub fn outside(alloc: Global) -> Place
        ensures value { place_of result ≡ Outside }
        ensures rooted { IsRooted result.open.items }
    {
        Place {
            among: None,
            open: Vec::new(alloc),
        }
    }

    /// Where the outermost text opened that is open, or this offset where there is none.
    pub fn opened(&self, at: u32) -> u32
        ensures { result ≡ opened at (place_of self.now) }
    {
        'outermost: for around in &self.open {
            if let Open::Interpolation(literal) = around {
                return literal.from;
            }
        }
        match self.among {
            Some(literal) => literal.from,
            None => at,
        }
    }

    /// Goes to the place after a token that begins at this offset.
    pub fn pass(&mut self, kind: &TokenKind, at: u32) -> Result<(), AllocError>
        requires may_stand { MayStand (place_of self.old) (Is kind.now) }
        ensures value { OnOk result (place_of self.new ≡ place_after kind.now at (place_of self.old)) }
        ensures rooted { IsRooted self.old.open.items → IsRooted self.new.open.items }
    {
        match kind {
            TokenKind::TextOpen(form) => {
                self.among = Some(Literal {
                    form: *form,
                    from: at,
                });
                Ok(())
            }
            TokenKind::TextClose => {
                self.among = None;
                Ok(())
            }
            TokenKind::InterpolationOpen => self.open_interpolation(),
            TokenKind::InterpolationClose => {
                self.close_interpolation();
                Ok(())
            }
            TokenKind::Mark(Mark::BraceOpen) => self.open_brace(),
            TokenKind::Mark(Mark::BraceClose) => {
                self.close_brace();
                Ok(())
            }
            _ => Ok(()),
        }
    }

    /// Goes from among the characters of a text into an interpolation.
    fn open_interpolation(&mut self) -> Result<(), AllocError>
        ensures value { OnOk result ((at : ℕ) → place_of self.new ≡ place_after kinds.InterpolationOpen at (place_of self.old)) }
        ensures rooted { IsRooted self.old.open.items → IsRooted self.new.open.items }
    {
        if let Some(literal) = self.among {
            self.open.push(Open::Interpolation(literal))?;
            self.among = None;
        }
        Ok(())
    }

    /// Goes from an interpolation back among the characters of its text, however many braces are open in it.
    fn close_interpolation(&mut self)
        ensures value { (at : ℕ) → place_of self.new ≡ place_after kinds.InterpolationClose at (place_of self.old) }
        ensures rooted { IsRooted self.old.open.items → IsRooted self.new.open.items }
    {
        if self.among.is_some() {
            return;
        }
        'braces: while let Some(innermost) = self.open.pop() {
            if let Open::Interpolation(literal) = innermost {
                self.among = Some(literal);
                return;
            }
        }
    }

    /// Counts a brace that opens in an interpolation.
    fn open_brace(&mut self) -> Result<(), AllocError>
        ensures value { OnOk result ((at : ℕ) → place_of self.new ≡ place_after (kinds.Mark BraceOpen) at (place_of self.old)) }
        ensures rooted { IsRooted self.old.open.items → IsRooted self.new.open.items }
    {
        if self.among.is_some() || self.open.is_empty() {
            return Ok(());
        }
        self.open.push(Open::Brace)?;
        Ok(())
    }

    /// Counts a brace that closes in an interpolation.
    fn close_brace(&mut self)
        ensures value { (at : ℕ) → place_of self.new ≡ place_after (kinds.Mark BraceClose) at (place_of self.old) }
        ensures rooted { IsRooted self.old.open.items → IsRooted self.new.open.items }
    {
        if self.among.is_some() {
            return;
        }
        match self.open.last() {
            None => {}
            Some(Open::Interpolation(_)) => {}
            Some(Open::Brace) => {
                let _brace = self.open.pop();
            }
        }
    }
}
