//! Marks that end the place of a frame.
ghost use Rattle.std.specs.Prelude.{◌≡◌, option_map};
ghost use Rattle.dh_grammar.specs.Machine as machine;
ghost use Rattle.dh_grammar.specs.Machine.{closed};
ghost use Rattle.dh_making.specs.Words.{key_of, keys_of};
ghost use Rattle.dh_reader.specs.Follows.{Follows};
ghost use Rattle.dh_reader.specs.Frames.{shut_of};
ghost use Rattle.dh_reader.specs.Stacks.{stack_of};
ghost use Rattle.dh_reader.specs.declared.tops.Top.TheVariants as tops;
ghost use Rattle.dh_syntax.specs.declared.tokens.Mark.TheVariants as marks;
ghost use Rattle.dh_syntax.specs.declared.tokens.TokenKind.TheVariants as kinds;

use crate::closing::entries::and_entry;
use crate::frames::Shut;
use crate::reader::Reader;
use crate::stops::{Stop, refused};
use crate::tops::Wait;
use dh_making::{EntryKey, Keys, Makes};

impl<M: Makes> Shut<M> {
    /// `)` behind the operand in the place of the frame.
    pub(crate) fn closed_by_paren(
        self,
        reader: &mut Reader<M>,
        operand: M::Tree,
    ) -> Result<(), Stop>
        requires { reader.old.top ≡ tops.Need }
        ensures { Follows M.views (closed (M.makes reader.old.at) (kinds.Mark marks.ParenClose) (shut_of M.views self) (M.views.tree operand) (stack_of M.views reader.old.frames)) reader.new result }
    {
        match self {
            Shut::Bracket => {
                let made = M::brackets(reader.alloc, reader.at, operand)?;
                reader.enter_ready(made)
            }
            Shut::Domain(is_lambda, word) => {
                reader.enter_wait(Wait::Domained(is_lambda, word, operand))
            }
            Shut::Selected(whole) => {
                let made = M::project_by(reader.alloc, reader.at, whole, operand)?;
                reader.enter_ready(made)
            }
            other => Err(refused((other, operand))),
        }
    }

    /// `]` behind the operand in the place of the frame.
    pub(crate) fn closed_by_bracket(
        self,
        reader: &mut Reader<M>,
        operand: M::Tree,
    ) -> Result<(), Stop>
        requires { reader.old.top ≡ tops.Need }
        ensures { Follows M.views (closed (M.makes reader.old.at) (kinds.Mark marks.BracketClose) (shut_of M.views self) (M.views.tree operand) (stack_of M.views reader.old.frames)) reader.new result }
    {
        match self {
            Shut::Items(has_leading, items) => {
                let items = M::add_item(reader.alloc, reader.at, items, operand)?;
                let made = M::list(reader.alloc, reader.at, has_leading, items, false)?;
                reader.enter_ready(made)
            }
            other => Err(refused((other, operand))),
        }
    }

    /// `}` behind the operand in the place of the frame.
    pub(crate) fn closed_by_brace(
        self,
        reader: &mut Reader<M>,
        operand: M::Tree,
    ) -> Result<(), Stop>
        requires { reader.old.top ≡ tops.Need }
        ensures { Follows M.views (closed (M.makes reader.old.at) (kinds.Mark marks.BraceClose) (shut_of M.views self) (M.views.tree operand) (stack_of M.views reader.old.frames)) reader.new result }
    {
        match self {
            Shut::FieldType(has_leading, fields, key) => {
                let fields = M::add_field(reader.alloc, reader.at, fields, key, operand)?;
                let made = M::record_type(reader.alloc, reader.at, has_leading, fields, false)?;
                reader.enter_ready(made)
            }
            Shut::EntryValue(has_leading, entries, keys) => {
                let entries = and_entry(reader, entries, keys, operand)?;
                let made = M::record_of(reader.alloc, reader.at, has_leading, entries, false)?;
                reader.enter_ready(made)
            }
            other => Err(refused((other, operand))),
        }
    }

    /// `>` behind the operand in the place of the frame.
    pub(crate) fn closed_by_angle(
        self,
        reader: &mut Reader<M>,
        operand: M::Tree,
    ) -> Result<(), Stop>
        requires { reader.old.top ≡ tops.Need }
        ensures { Follows M.views (closed (M.makes reader.old.at) (kinds.Mark marks.AngleClose) (shut_of M.views self) (M.views.tree operand) (stack_of M.views reader.old.frames)) reader.new result }
    {
        match self {
            Shut::AlternativeType(has_leading, alternatives, key) => {
                let note = M::typed(reader.alloc, reader.at, operand)?;
                let alternatives = M::add_alternative(
                    reader.alloc,
                    reader.at,
                    alternatives,
                    key,
                    note,
                )?;
                let made = M::union(reader.alloc, reader.at, has_leading, alternatives, false)?;
                reader.enter_ready(made)
            }
            other => Err(refused((other, operand))),
        }
    }

    /// `,` behind the operand in the place of the frame.
    pub(crate) fn closed_by_comma(
        self,
        reader: &mut Reader<M>,
        operand: M::Tree,
    ) -> Result<(), Stop>
        requires { reader.old.top ≡ tops.Need }
        ensures { Follows M.views (closed (M.makes reader.old.at) (kinds.Mark marks.Comma) (shut_of M.views self) (M.views.tree operand) (stack_of M.views reader.old.frames)) reader.new result }
    {
        match self {
            Shut::Items(has_leading, items) => { item_comma(reader, has_leading, items, operand) }
            Shut::FieldType(has_leading, fields, key) => {
                field_comma(reader, has_leading, fields, key, operand)
            }
            Shut::EntryValue(has_leading, entries, keys) => {
                entry_comma(reader, has_leading, entries, keys, operand)
            }
            other => Err(refused((other, operand))),
        }
    }

    /// `=` behind the operand in the place of the frame.
    pub(crate) fn closed_by_equals(
        self,
        reader: &mut Reader<M>,
        operand: M::Tree,
    ) -> Result<(), Stop>
        requires { reader.old.top ≡ tops.Need }
        ensures { Follows M.views (closed (M.makes reader.old.at) (kinds.Mark marks.Equals) (shut_of M.views self) (M.views.tree operand) (stack_of M.views reader.old.frames)) reader.new result }
    {
        match self {
            Shut::LetType(lets, word) => {
                let note = M::typed(reader.alloc, reader.at, operand)?;
                reader.enter_shut(Shut::LetValue(lets, word, note))
            }
            other => Err(refused((other, operand))),
        }
    }

    /// `|` behind the operand in the place of the frame.
    pub(crate) fn closed_by_bar(self, reader: &mut Reader<M>, operand: M::Tree) -> Result<(), Stop>
        requires { reader.old.top ≡ tops.Need }
        ensures { Follows M.views (closed (M.makes reader.old.at) (kinds.Mark marks.Bar) (shut_of M.views self) (M.views.tree operand) (stack_of M.views reader.old.frames)) reader.new result }
    {
        match self {
            Shut::AlternativeType(has_leading, alternatives, key) => {
                let note = M::typed(reader.alloc, reader.at, operand)?;
                let alternatives = M::add_alternative(
                    reader.alloc,
                    reader.at,
                    alternatives,
                    key,
                    note,
                )?;
                reader.enter_wait(Wait::AlternativeBar(has_leading, alternatives))
            }
            other => Err(refused((other, operand))),
        }
    }
}

// What an arm of a `match` needs is made ready at each call of its function, so the ends of items, fields and entries, of
// which a text has most, are functions of their own.

/// `,` behind an item.
fn item_comma<M: Makes>(
    reader: &mut Reader<M>,
    has_leading: bool,
    items: Option<M::Items>,
    item: M::Tree,
) -> Result<(), Stop>
    requires { reader.old.top ≡ tops.Need }
    ensures { Follows M.views (closed (M.makes reader.old.at) (kinds.Mark marks.Comma) (machine.items has_leading (option_map M.views.items items)) (M.views.tree item) (stack_of M.views reader.old.frames)) reader.new result }
{
    let items = M::add_item(reader.alloc, reader.at, items, item)?;
    reader.enter_shut(Shut::Items(has_leading, Some(items)))
}

/// `,` behind the type of a field.
fn field_comma<M: Makes>(
    reader: &mut Reader<M>,
    has_leading: bool,
    fields: Option<M::Fields>,
    key: EntryKey,
    field: M::Tree,
) -> Result<(), Stop>
    requires { reader.old.top ≡ tops.Need }
    ensures { Follows M.views (closed (M.makes reader.old.at) (kinds.Mark marks.Comma) (machine.field_type has_leading (option_map M.views.fields fields) (key_of key)) (M.views.tree field) (stack_of M.views reader.old.frames)) reader.new result }
{
    let fields = M::add_field(reader.alloc, reader.at, fields, key, field)?;
    reader.enter_wait(Wait::FieldComma(has_leading, fields))
}

/// `,` behind the value of an entry.
fn entry_comma<M: Makes>(
    reader: &mut Reader<M>,
    has_leading: bool,
    entries: Option<M::Entries>,
    keys: Keys,
    value: M::Tree,
) -> Result<(), Stop>
    requires { reader.old.top ≡ tops.Need }
    ensures { Follows M.views (closed (M.makes reader.old.at) (kinds.Mark marks.Comma) (machine.entry_value has_leading (option_map M.views.entries entries) (keys_of keys)) (M.views.tree value) (stack_of M.views reader.old.frames)) reader.new result }
{
    let entries = and_entry(reader, entries, keys, value)?;
    reader.enter_wait(Wait::EntryComma(has_leading, entries))
}
