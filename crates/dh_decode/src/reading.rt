//! Reading items a head at a time.
ghost use Rattle.std.specs.Prelude.{◌≡◌, ◌≢◌, false, IfOk, IfErr, IfSome, option_map, not, None, ◌∷◌};
ghost use Rattle.dh_cbor.specs.Readings.{the_atom, the_mark};
ghost use Rattle.dh_syntax.specs.Bytes.BinaryLeaves.{inserted};
ghost use Rattle.dh_binary.specs.Machine as machine;
ghost use Rattle.dh_binary.specs.Stubs.{stubs};
ghost use Rattle.dh_decode.specs.declared.stops.Stop.TheVariants as stop;
ghost use Rattle.dh_decode.specs.Inside.States.{state_of, outcome_of, want_of, labels_on, keys_on};
ghost use Rattle.dh_decode.specs.Inside.Steps.{leaving, Refuses};
ghost use Rattle.dh_decode.specs.Inside.Takings.{Takes};
ghost use Rattle.dh_decode.specs.Inside.Views.{place_of, value_of, frames_of};

use crate::entries::{has_entry, has_name};
use crate::piles::Pile;
use crate::places::{Entries, Frame, OpenItem, Test, Value, Want};
use crate::rows::when;
use crate::stops::Stop;
use crate::taking::{
    big_integer, big_natural, called, digest, index, integer_item, mode, natural_item, null,
    nullable, opening, operator_code, query_item, scheme, term,
};
use crate::texts::spelled;
use dh_cbor::{Atom, Mark};
use dh_syntax::Many;
use std::alloc::Global;

/// What is wanted next, and the arrays and maps that stand open.
#[derive(Drop)]
pub struct Reader<'a> {
    pub want: Want,
    pub frames: Pile<Frame<'a>>,
}

impl<'a> Reader<'a> {
    /// Before the first head.
    pub fn new(alloc: Global) -> Reader<'a>
        ensures { state_of result.want result.frames ≡ machine.start }
    {
        Reader {
            want: Want::Whole,
            frames: Pile::new(alloc),
        }
    }

    /// Waits for an item of a place, with so many behind it.
    #[inline(always)]
    fn wait(&mut self, place: OpenItem<'a>, left: u128) -> Result<(), Stop>
        ensures ok { IfOk result (λ u.
            state_of self.new.want self.new.frames ≡ machine.reading (machine.want (place_of place.entry) left)
            (record { place = place_of place.entry; left = left } ∷ frames_of self.old.frames)) }
        ensures err { IfErr result (λ s. s ≡ stop.Memory) }
    {
        self.want = place.want(left);
        self.frames.push(Frame { place, left })?;
        Ok(())
    }

    /// Goes on in a place where so many items are left: `None` where it waits for one, its value where there is none.
    #[inline(always)]
    fn close(
        &mut self,
        alloc: Global,
        place: OpenItem<'a>,
        left: u128,
    ) -> Result<Option<Value<'a>>, Stop>
        ensures ok { IfOk result (λ o.
            machine.settle stubs (place_of place.entry) left (frames_of self.old.frames) ≡ leaving o self.new.want self.new.frames) }
        ensures same { IfOk result (λ o. IfSome o (λ v. self.new.frames ≡ self.old.frames)) }
        ensures misfit { IfErr result (λ s. s ≡ stop.Misfit →
            machine.settle stubs (place_of place.entry) left (frames_of self.old.frames) ≡ machine.stopped) }
        ensures narrow { IfErr result (λ s. s ≢ stop.Wide) }
    {
        if left > 0 {
            self.wait(place, left - 1)?;
            return Ok(None);
        }
        match place.ended(alloc)? {
            Some(value) => Ok(Some(value)),
            None => Err(Stop::Misfit),
        }
    }

    /// Delivers the value of an item to the place that waits for it. `None` where more items are to come, the value of
    /// the whole where it is read.
    fn deliver(&mut self, alloc: Global, value: Value<'a>) -> Result<Option<Value<'a>>, Stop>
        ensures ok { IfOk result (λ o.
            machine.deliver stubs (value_of value.entry) (frames_of self.old.frames) ≡ outcome_of o self.new.want self.new.frames) }
        ensures misfit { IfErr result (λ s. s ≡ stop.Misfit →
            machine.deliver stubs (value_of value.entry) (frames_of self.old.frames) ≡ machine.stopped) }
        ensures narrow { IfErr result (λ s. s ≢ stop.Wide) }
    {
        let mut value = value;
        while let Some(frame) = self.frames.pop() {
            let Frame { place, left } = frame;
            let place = place.filled(alloc, value)?;
            match self.close(alloc, place, left)? {
                Some(ended) => value = ended,
                None => return Ok(None),
            }
        }
        Ok(Some(value))
    }

    /// Goes on in a place that opens with so many items.
    fn settle(
        &mut self,
        alloc: Global,
        place: OpenItem<'a>,
        left: u128,
    ) -> Result<Option<Value<'a>>, Stop>
        ensures ok { IfOk result (λ o.
            machine.settle stubs (place_of place.entry) left (frames_of self.old.frames) ≡ outcome_of o self.new.want self.new.frames) }
        ensures misfit { IfErr result (λ s. s ≡ stop.Misfit →
            machine.settle stubs (place_of place.entry) left (frames_of self.old.frames) ≡ machine.stopped) }
        ensures narrow { IfErr result (λ s. s ≢ stop.Wide) }
    {
        match self.close(alloc, place, left)? {
            Some(value) => self.deliver(alloc, value),
            None => Ok(None),
        }
    }

    /// Whether the projection on top has a label.
    fn has_label(&self, name: &str) -> bool
        ensures { machine.is_some (inserted (λ y. y) name.now (labels_on (frames_of self.now.frames))) ≡ not result }
    {
        match self.frames.top() {
            Some(
                Frame {
                    place: OpenItem::Labelled(_, names),
                    left: _,
                },
            ) => has_name(names, name),
            Some(_) => false,
            None => false,
        }
    }

    /// Whether the map on top has a label.
    fn has_key(&self, name: &str) -> bool
        ensures { machine.is_some (inserted (λ e. e.name) (record { name = name.now; value = None }) (keys_on (frames_of self.now.frames))) ≡ not result }
    {
        match self.frames.top() {
            Some(
                Frame {
                    place: OpenItem::Key(_, entries),
                    left: _,
                },
            ) => has_entry(entries, name),
            Some(_) => false,
            None => false,
        }
    }

    /// A label that the projection on top has not yet.
    fn fresh_label(&self, atom: Atom<'a>) -> Result<Value<'a>, Stop>
        ensures { Takes (λ b. machine.called_by stubs (machine.fresh (labels_on (frames_of self.now.frames))) (the_atom atom.entry)) result }
    {
        match atom {
            Atom::Characters(text) => match spelled(Test::Label, text) {
                Some(name) if !self.has_label(name) => Ok(Value::Called(name)),
                Some(_) => Err(Stop::Misfit),
                None => Err(Stop::Misfit),
            },
            Atom::Unsigned(_) | Atom::Negative(_) => Err(Stop::Misfit),
            Atom::Octets(_) | Atom::Simple(_) => Err(Stop::Misfit),
        }
    }

    /// A label that the map on top has not yet.
    fn fresh_key(&self, atom: Atom<'a>) -> Result<Value<'a>, Stop>
        ensures { Takes (λ b. machine.called_by stubs (machine.fresh_key (keys_on (frames_of self.now.frames))) (the_atom atom.entry)) result }
    {
        match atom {
            Atom::Characters(text) => match spelled(Test::Label, text) {
                Some(name) if !self.has_key(name) => Ok(Value::Called(name)),
                Some(_) => Err(Stop::Misfit),
                None => Err(Stop::Misfit),
            },
            Atom::Unsigned(_) | Atom::Negative(_) => Err(Stop::Misfit),
            Atom::Octets(_) | Atom::Simple(_) => Err(Stop::Misfit),
        }
    }

    /// What an atom gives.
    fn atom(&self, alloc: Global, atom: Atom<'a>) -> Result<Value<'a>, Stop>
        ensures { Takes (λ b. machine.atom_as stubs b (want_of self.now.want (frames_of self.now.frames)) (the_atom atom.entry)) result }
    {
        match self.want {
            Want::Term | Want::Whole => term(alloc, atom),
            Want::Nullable => nullable(alloc, atom),
            Want::Opening(items) => opening(alloc, items, atom),
            Want::Spelled(test) => called(test, atom),
            Want::FreshLabel => self.fresh_label(atom),
            Want::FreshKey => self.fresh_key(atom),
            Want::Null => null(atom),
            Want::Index => index(atom),
            Want::OperatorCode => operator_code(atom),
            Want::Digest => digest(alloc, atom),
            Want::Mode => mode(atom),
            Want::Scheme(items) => scheme(items, atom),
            Want::Query => query_item(atom),
            Want::Natural => natural_item(atom),
            Want::Integer => integer_item(atom),
            Want::BigNatural => big_natural(atom),
            Want::BigInteger(tag) => big_integer(tag, atom),
            Want::Boxed => called(Test::Label, atom),
            Want::Path | Want::Rows(_) | Want::None => Err(Stop::Misfit),
        }
    }

    /// The place of an array of so many items.
    fn array(&self, alloc: Global, items: u64) -> Option<OpenItem<'a>>
        ensures { option_map place_of result ≡ machine.array_as stubs (want_of self.now.want (frames_of self.now.frames)) items }
    {
        match self.want {
            Want::Term | Want::Whole | Want::Nullable => when(items >= 2, OpenItem::First),
            Want::Path => when(items >= 1, OpenItem::Labels(Many::new(alloc))),
            Want::Boxed => when(items == 1, OpenItem::Boxing),
            Want::Opening(_) | Want::Spelled(_) | Want::FreshLabel | Want::FreshKey => None,
            Want::Null | Want::Index | Want::OperatorCode | Want::Digest | Want::Mode => None,
            Want::Scheme(_) | Want::Query | Want::Natural | Want::Integer => None,
            Want::BigNatural | Want::BigInteger(_) | Want::Rows(_) | Want::None => None,
        }
    }

    /// The place of a map.
    fn map(&self, alloc: Global) -> Option<OpenItem<'a>>
        ensures { option_map place_of result ≡ machine.map_as stubs (want_of self.now.want (frames_of self.now.frames)) }
    {
        match self.want {
            Want::Rows(nulls) => Some(OpenItem::Key(nulls, Entries::new(alloc))),
            Want::Term | Want::Whole | Want::Nullable | Want::Path | Want::Boxed => None,
            Want::Opening(_) | Want::Spelled(_) | Want::FreshLabel | Want::FreshKey => None,
            Want::Null | Want::Index | Want::OperatorCode | Want::Digest | Want::Mode => None,
            Want::Scheme(_) | Want::Query | Want::Natural | Want::Integer => None,
            Want::BigNatural | Want::BigInteger(_) | Want::None => None,
        }
    }

    /// Opens a place of so many items, if there is one.
    fn open(
        &mut self,
        alloc: Global,
        place: Option<OpenItem<'a>>,
        items: u128,
    ) -> Result<Option<Value<'a>>, Stop>
        ensures ok { IfOk result (λ o.
            machine.open_place stubs (option_map place_of place.entry) items (frames_of self.old.frames) ≡ outcome_of o self.new.want self.new.frames) }
        ensures misfit { IfErr result (λ s. s ≡ stop.Misfit →
            machine.open_place stubs (option_map place_of place.entry) items (frames_of self.old.frames) ≡ machine.stopped) }
        ensures narrow { IfErr result (λ s. s ≢ stop.Wide) }
    {
        match place {
            Some(place) => self.settle(alloc, place, items),
            None => Err(Stop::Misfit),
        }
    }

    /// Takes a head. `None` where more heads are to come, the value of the whole where it is read.
    pub fn take(&mut self, alloc: Global, mark: Mark<'a>) -> Result<Option<Value<'a>>, Stop>
        ensures ok { IfOk result (λ o.
            machine.after stubs false (the_mark mark.entry) (state_of self.old.want self.old.frames) ≡ outcome_of o self.new.want self.new.frames) }
        ensures err { IfErr result (λ s. Refuses (the_mark mark.entry) self.old.want self.old.frames s) }
    {
        match mark {
            Mark::Atom(atom) => {
                let value = self.atom(alloc, atom)?;
                self.deliver(alloc, value)
            }
            Mark::Array(items) => {
                let place = self.array(alloc, items);
                self.open(alloc, place, u128::from(items))
            }
            Mark::Map(pairs) => {
                let place = self.map(alloc);
                self.open(alloc, place, 2 * u128::from(pairs))
            }
            Mark::Tag(tag) => match self.want.behind_tag(tag) {
                Some(want) => {
                    self.want = want;
                    Ok(None)
                }
                None => Err(Stop::Misfit),
            },
        }
    }
}
