//! Types that were found of codes that stand by themselves, so that such a code is typed once.

ghost use Rattle.std.specs.Prelude.{◌≡◌, ◌<◌, ℕ, [], true, IfSome, OnOk};
ghost use Rattle.dh_syntax.specs.Names.Nameless.{Core};
ghost use Rattle.dh_store.specs.Growth.{count};
ghost use Rattle.dh_infer.specs.Inside.Facts.{AreFacts, IsFactFor, IsTyped, IsTypeOf};

use crate::piles::Pile;
use dh_store::{CodeId, Codes};
use dh_types::Memo;
use std::alloc::{AllocError, Global};

/// The type of a code that stands by itself, where the variables that have numbers have these types, the first number first.
#[derive(Drop)]
pub(crate) struct Fact {
    pub(crate) code: CodeId,
    pub(crate) typed: CodeId,
    pub(crate) levels: Vec<CodeId>,
}

/// What was found, and the place of what was found last of each code.
#[derive(Drop)]
pub(crate) struct Facts {
    pub(crate) found: Vec<Fact>,
    places: Memo<u32>,
}

impl Fact {
    /// Whether it tells the type of this code where the variables that have numbers have these types.
    fn is_for(&self, codes: &Codes, levels: &Pile<CodeId>, code: CodeId) -> bool
        ensures { result ≡ true → IsFactFor codes.now levels.now code self.now }
    {
        if self.code != code {
            return false;
        }
        match codes.get(self.typed) {
            Some(_) => levels.begins_with(self.levels.as_slice()),
            None => false,
        }
    }
}

/// The type of a code by itself, if what was found at this place tells it where the variables that have numbers have these types.
fn told(
    found: &[Fact],
    place: u32,
    codes: &Codes,
    levels: &Pile<CodeId>,
    code: CodeId,
) -> Option<CodeId>
    ensures there { IfSome result (λ t. t < count codes.now) }
    ensures typed { IfSome result (λ t. (g : ℕ → Core) → AreFacts g found.now → IsTyped g levels.now code t) }
{
    match found.get(place as usize) {
        Some(fact) => {
            if fact.is_for(codes, levels, code) {
                Some(fact.typed)
            } else {
                None
            }
        }
        None => None,
    }
}

impl Facts {
    /// Nothing yet.
    pub(crate) fn new(alloc: Global) -> Facts
        ensures { result.found.items ≡ [] }
    {
        Facts {
            found: Vec::new(alloc),
            places: Memo::new(alloc),
        }
    }

    /// The type of a code by itself, if it is known where the variables that have numbers have these types.
    pub(crate) fn type_of(
        &self,
        codes: &Codes,
        levels: &Pile<CodeId>,
        code: CodeId,
    ) -> Option<CodeId>
        ensures there { IfSome result (λ t. t < count codes.now) }
        ensures typed { IfSome result (λ t. (g : ℕ → Core) → AreFacts g self.now.found.items → IsTyped g levels.now code t) }
    {
        match self.places.get(code, 0) {
            Some(place) => told(self.found.as_slice(), place, codes, levels, code),
            None => None,
        }
    }

    /// Keeps the type of a code that stands by itself, where the variables that have numbers have these types.
    pub(crate) fn keep(
        &mut self,
        alloc: Global,
        levels: &Pile<CodeId>,
        code: CodeId,
        typed: CodeId,
    ) -> Result<(), AllocError>
        ensures { OnOk result ((g : ℕ → Core) → AreFacts g self.old.found.items → IsTypeOf g levels.now code typed → AreFacts g self.new.found.items) }
    {
        let place = u32::try_from(self.found.len()).ok().ok_or(AllocError)?;
        let levels = levels.items_of(alloc)?;
        self.found.push(Fact {
            code,
            typed,
            levels,
        })?;
        self.places.put(code, 0, place)?;
        Ok(())
    }
}
