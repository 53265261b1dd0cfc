//! The entries of records.
ghost use Rattle.std.specs.Prelude.{◌≡◌, IfOk, option_map};
ghost use Rattle.dh_grammar.specs.Placing.{back, placing, add_entry, given, fenced};
ghost use Rattle.dh_making.specs.Views.{with_old};
ghost use Rattle.dh_making.specs.Words.{key_of, keys_of};
ghost use Rattle.dh_places.specs.Inside.Later.{later, position};
ghost use Rattle.dh_places.specs.Parts.{placed_of, stand_of, entry_of, stands_under, entries_of};
ghost use Rattle.dh_syntax.specs.Text.Meaning.{put};
ghost use Rattle.dh_syntax.specs.Text.Noting.{keys_len, stand_joined, stands, records_round};

use crate::nodes::{back, fenced};
use crate::notes::Notes;
use crate::parts::{Entries, Entry, Placed, Stand};
use dh_making::{ByLabel, EntryKey, Keys};
use std::alloc::{AllocError, Global};

/// `key`, whose value is the variable of that name. It is made when the token behind it is read.
pub fn alone<N: Notes>(alloc: Global, at: u32, key: EntryKey) -> Result<Entry<N::Row>, AllocError>
    ensures { IfOk result (λ e. entry_of N.noting N.view e ≡ (placing N.noting at).alone (key_of key)) }
{
    let label = key.into_label(alloc)?;
    let from = back(1, at);
    let value = N::node(alloc, from, at, N::none(alloc))?;
    let stand = Stand {
        value,
        from,
        to: at,
    };
    Ok(Entry { label, stand })
}

/// `keys = value`, where `a.b.c = v` is `a = { b = { c = v } }`. It begins with its keys and `=`; which token is read tells
/// nothing, so the clause has 0 for its number.
pub fn given<N: Notes>(
    alloc: Global,
    keys: Keys,
    value: Placed<N::Row>,
) -> Result<Entry<N::Row>, AllocError>
    ensures { IfOk result (λ e.
        entry_of N.noting N.view e ≡ (placing N.noting 0).given (keys_of keys) (placed_of N.noting N.view value)) }
{
    let Placed {
        first,
        last,
        nodes,
        ..
    } = value;
    let from = before_keys(&keys, back(1, first));
    let (key, more) = keys.into_parts();
    let label = key.into_label(alloc)?;
    let later = more.as_slice().len();
    let value = records_round::<N>(alloc, from, later, last, nodes)?;
    let stand = Stand {
        value,
        from,
        to: last,
    };
    Ok(Entry { label, stand })
}

/// The number of the first token of keys, by that of the token behind them.
fn before_keys(keys: &Keys, at: u32) -> u32
    ensures { result ≡ back (keys_len (keys_of keys.now)) at }
{
    (at as usize).saturating_sub(keys.token_count()) as u32
}

/// What is noted of a value in the records that are made for so many later keys of an entry. Each has the stretch from its key to
/// the end of the value.
fn records_round<N: Notes>(
    alloc: Global,
    from: u32,
    count: usize,
    last: u32,
    value: N::Row,
) -> Result<N::Row, AllocError>
    ensures { IfOk result (λ made. N.view made ≡ records_round N.noting (later count from) last (N.view value)) }
{
    let mut left = count;
    let mut nodes = value;
    while left > 0 {
        left -= 1;
        nodes = N::node(alloc, position(from, left)?, last, nodes)?;
    }
    Ok(nodes)
}

/// The number of a later key, counted from 0. A text has too few tokens for it to fail.
fn position(from: u32, key: usize) -> Result<u32, AllocError>
    ensures { IfOk result (λ at. at ≡ position key from) }
{
    let tokens = key.checked_mul(2).ok_or(AllocError)?;
    let at = tokens.checked_add(from as usize).ok_or(AllocError)?;
    let at = at.checked_add(2).ok_or(AllocError)?;
    u32::try_from(at).ok().ok_or(AllocError)
}

/// One entry more beside those that there are. Two entries of one label become one by `∧`, whose stretch goes from the first
/// token of the one to the last of the other.
pub fn add_entry<N: Notes>(
    alloc: Global,
    so_far: Option<Entries<N::Row>>,
    entry: Entry<N::Row>,
) -> Result<Entries<N::Row>, AllocError>
    ensures { IfOk result (λ made.
        entries_of N.noting N.view made ≡ add_entry N.noting (option_map (entries_of N.noting N.view) so_far) (entry_of N.noting N.view entry)) }
{
    match so_far {
        Some(Entries { first, rows }) => {
            let rows = with_entry::<N>(alloc, rows, entry)?;
            Ok(Entries { first, rows })
        }
        None => {
            let first = entry.stand.from;
            let rows = with_entry::<N>(alloc, ByLabel::new(alloc), entry)?;
            Ok(Entries { first, rows })
        }
    }
}

/// These entries and one more.
fn with_entry<N: Notes>(
    alloc: Global,
    rows: ByLabel<Stand<N::Row>>,
    entry: Entry<N::Row>,
) -> Result<ByLabel<Stand<N::Row>>, AllocError>
    ensures { IfOk result (λ made.
        stands_under N.noting N.view made ≡ put (stand_joined N.noting) (entry_of N.noting N.view entry) (stands_under N.noting N.view rows)) }
{
    let mut rows = rows;
    let Entry { label, stand } = entry;
    let old = rows.remove(&label);
    let stand = stand_on::<N>(alloc, old, stand)?;
    rows.insert(label, stand)?;
    Ok(rows)
}

/// What stands under a label, with what stood there before.
fn stand_on<N: Notes>(
    alloc: Global,
    old: Option<Stand<N::Row>>,
    new: Stand<N::Row>,
) -> Result<Stand<N::Row>, AllocError>
    ensures { IfOk result (λ s.
        stand_of N.noting N.view s ≡ with_old (stand_joined N.noting) (option_map (stand_of N.noting N.view) old) (stand_of N.noting N.view new)) }
{
    match old {
        Some(old) => {
            let parts = N::joined(old.value, new.value)?;
            Ok(Stand {
                value: N::node(alloc, old.from, new.to, parts)?,
                from: old.from,
                to: new.to,
            })
        }
        None => Ok(new),
    }
}

/// The record of these entries; `comma` says whether one stands before the first.
pub fn record<N: Notes>(
    alloc: Global,
    at: u32,
    comma: bool,
    entries: Entries<N::Row>,
) -> Result<Placed<N::Row>, AllocError>
    ensures { IfOk result (λ x.
        placed_of N.noting N.view x ≡ fenced N.noting at entries.first comma (stands N.noting (stands_under N.noting N.view entries.rows))) }
{
    let Entries { first, rows } = entries;
    let parts = stands::<N>(alloc, rows)?;
    fenced::<N>(alloc, at, first, comma, parts)
}

/// What is noted of all entries, in the order of their labels.
fn stands<N: Notes>(alloc: Global, entries: ByLabel<Stand<N::Row>>) -> Result<N::Row, AllocError>
    ensures { IfOk result (λ made. N.view made ≡ stands N.noting (stands_under N.noting N.view entries)) }
{
    let mut nodes = N::none(alloc);
    let mut entries = entries.into_vec(alloc)?;
    while let Some((_, stand)) = entries.pop() {
        nodes = N::joined(stand.value, nodes)?;
    }
    Ok(nodes)
}
