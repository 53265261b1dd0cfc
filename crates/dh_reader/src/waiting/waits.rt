//! A token within a production.
ghost use Rattle.std.specs.Prelude.{◌≡◌, true};
ghost use Rattle.dh_grammar.specs.Machine.{after};
ghost use Rattle.dh_reader.specs.Follows.{Follows};
ghost use Rattle.dh_reader.specs.Inside.Nexts.{next};
ghost use Rattle.dh_reader.specs.Inside.Tops.{is_waiting};
ghost use Rattle.dh_reader.specs.Stacks.{stack_of};
ghost use Rattle.dh_reader.specs.declared.tops.Top.TheVariants as tops;
ghost use Rattle.dh_reader.specs.States.{state_of, wait_of};

use crate::reader::Reader;
use crate::stops::Stop;
use crate::tops::Wait;
use crate::waiting::entries::{entry_comma, entry_dot, entry_keys};
use crate::waiting::imports::{indexed, moded};
use crate::waiting::lets::{lettered, letting};
use crate::waiting::projections::{dotted, projected, projected_comma, projecting};
use crate::waiting::quantifiers::{asserting, domained, quantified, quantifier, quantity};
use crate::waiting::records::{field_comma, field_key, record_equals, record_start};
use crate::waiting::texts::{text_front, text_piece};
use crate::waiting::unions::{alternative, alternative_bar, empty, union_start};
use crate::waiting::updates::{with_dot, with_keys, with_start};
use dh_making::Makes;
use dh_syntax::TokenKind;

/// A token within a production.
pub fn waited<M: Makes>(reader: &mut Reader<M>, kind: TokenKind) -> Result<(), Stop>
    requires { is_waiting reader.old.top ≡ true }
    ensures { Follows M.views (after (M.makes reader.old.at) kind (state_of M.views reader.old.frames reader.old.top)) reader.new result }
{
    let wait = reader.top.take_wait();
    awaited(reader, wait, kind)
}

// What an arm of a `match` needs is made ready at each call of its function. So the waits that come most often stand apart.

/// The next place of the reader after a token at this wait: each wait has a call of its own.
fn awaited<M: Makes>(reader: &mut Reader<M>, wait: Wait<M>, kind: TokenKind) -> Result<(), Stop>
    requires { reader.old.top ≡ tops.Need }
    ensures { Follows M.views (next (M.makes reader.old.at) (wait_of M.views wait) kind (stack_of M.views reader.old.frames)) reader.new result }
{
    match wait {
        Wait::EntryKeys(has_leading, entries, keys) => {
            entry_keys(reader, has_leading, entries, keys, kind)
        }
        Wait::EntryComma(has_leading, entries) => {
            entry_comma(reader, has_leading, entries, kind)
        }
        Wait::Lettered(lets, word) => lettered(reader, lets, word, kind),
        Wait::Dotted(whole) => dotted(reader, whole, kind),
        other => awaited_else(reader, other, kind),
    }
}

/// Any wait, of which some are told apart above.
fn awaited_else<M: Makes>(
    reader: &mut Reader<M>,
    wait: Wait<M>,
    kind: TokenKind,
) -> Result<(), Stop>
    requires { reader.old.top ≡ tops.Need }
    ensures { Follows M.views (next (M.makes reader.old.at) (wait_of M.views wait) kind (stack_of M.views reader.old.frames)) reader.new result }
{
    match wait {
        Wait::Quantifier(is_lambda) => quantifier(reader, is_lambda, kind),
        Wait::Quantified(is_lambda) => quantified(reader, is_lambda, kind),
        Wait::Quantity(is_lambda, word) => quantity(reader, is_lambda, word, kind),
        Wait::Domained(is_lambda, word, domain) => {
            domained(reader, is_lambda, word, domain, kind)
        }
        Wait::Asserting => asserting(reader, kind),
        Wait::Letting(lets) => letting(reader, lets, kind),
        Wait::Lettered(lets, word) => lettered(reader, lets, word, kind),
        Wait::WithStart(whole) => with_start(reader, whole, kind),
        Wait::WithKeys(whole, keys) => with_keys(reader, whole, keys, kind),
        Wait::WithDot(whole, keys) => with_dot(reader, whole, keys, kind),
        Wait::Indexed(word) => indexed(reader, word, kind),
        Wait::Moded(import) => moded(reader, import, kind),
        Wait::Dotted(whole) => dotted(reader, whole, kind),
        Wait::Projecting(whole, has_leading) => projecting(reader, whole, has_leading, kind),
        Wait::Projected(whole, has_leading, labels) => {
            projected(reader, whole, has_leading, labels, kind)
        }
        Wait::ProjectedComma(whole, has_leading, labels) => {
            projected_comma(reader, whole, has_leading, labels, kind)
        }
        Wait::Empty(has_leading) => empty(reader, has_leading, kind),
        Wait::UnionStart(has_leading) => union_start(reader, has_leading, kind),
        Wait::Alternative(has_leading, alternatives, key) => {
            alternative(reader, has_leading, alternatives, key, kind)
        }
        Wait::AlternativeBar(has_leading, alternatives) => {
            alternative_bar(reader, has_leading, alternatives, kind)
        }
        Wait::RecordStart(has_leading) => record_start(reader, has_leading, kind),
        Wait::RecordEquals(has_leading, ends_late) => {
            record_equals(reader, has_leading, ends_late, kind)
        }
        Wait::FieldComma(has_leading, fields) => { field_comma(reader, has_leading, fields, kind) }
        Wait::FieldKey(has_leading, fields, key) => {
            field_key(reader, has_leading, fields, key, kind)
        }
        Wait::EntryComma(has_leading, entries) => {
            entry_comma(reader, has_leading, entries, kind)
        }
        Wait::EntryKeys(has_leading, entries, keys) => {
            entry_keys(reader, has_leading, entries, keys, kind)
        }
        Wait::EntryDot(has_leading, entries, keys) => {
            entry_dot(reader, has_leading, entries, keys, kind)
        }
        Wait::TextFront(form, front) => { text_front(reader, form, front, kind) }
        Wait::TextPiece(form, chunks) => { text_piece(reader, form, chunks, kind) }
    }
}
