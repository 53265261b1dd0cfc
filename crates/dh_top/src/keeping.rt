//! Keeping the entries of a run in the cache.

ghost use Rattle.std.specs.Prelude.{◌≡◌, ◌≤◌, ◌<◌, ◌∷◌, [], All, OnOk, OnErr, List, length, map};
ghost use Rattle.dh_syntax.specs.Limits.{most_entry_bytes};
ghost use Rattle.dh_record.specs.Kept.{pair_of};
ghost use Rattle.dh_top.specs.Outside.{AtFirst, FilesAll, FilesSome, Pair};

use dh_ports::{CacheEntry, Desk, DeskError, World};
use std::alloc::AllocError;

/// Keeps an entry. A device that fails to keep it changes nothing but its count of faults.
fn keep_entry<W: World, D: Desk<W>>(desk: &mut D, entry: &CacheEntry) -> Result<(), AllocError>
    requires { length entry.now.bytes ≤ most_entry_bytes }
    ensures kept { OnOk result (FilesAll (D.faults desk.old) (D.faults desk.new) (D.filed desk.old) (D.filed desk.new) (pair_of entry.now ∷ [])) }
    ensures not_kept { OnErr result (D.filed desk.new ≡ D.filed desk.old) }
    ensures counted { D.faults desk.old ≤ D.faults desk.new }
    ensures asked { D.asked desk.new ≡ D.asked desk.old }
{
    match desk.keep(&entry.digest, entry.bytes.as_slice()) {
        Ok(()) => Ok(()),
        Err(DeskError::Failed) => Ok(()),
        Err(DeskError::Memory) => Err(AllocError),
    }
}

/// Keeps entries, in their order, until memory is wanting.
pub(crate) fn keep_all<W: World, D: Desk<W>>(
    desk: &mut D,
    entries: &[CacheEntry],
) -> Result<(), AllocError>
    requires { All (λ e. length e.bytes ≤ most_entry_bytes) entries.now }
    ensures kept { OnOk result (FilesAll (D.faults desk.old) (D.faults desk.new) (D.filed desk.old) (D.filed desk.new) (map pair_of entries.now)) }
    ensures part { OnErr result ((kept : List Pair) × FilesSome (D.filed desk.old) (D.filed desk.new) (map pair_of entries.now) kept) }
    ensures counted { D.faults desk.old ≤ D.faults desk.new }
    ensures asked { D.asked desk.new ≡ D.asked desk.old }
{
    let mut left = entries;
    while let Some((entry, rest)) = left.split_first() {
        keep_entry::<W, D>(desk, entry)?;
        left = rest;
    }
    Ok(())
}

/// Keeps entries at the first desk.
pub(crate) fn keep_at_first<W: World, D: Desk<W>>(
    desks: &mut [D],
    entries: &[CacheEntry],
) -> Result<(), AllocError>
    requires some { 0 < length desks.old }
    requires small { All (λ e. length e.bytes ≤ most_entry_bytes) entries.now }
    ensures kept { OnOk result (AtFirst (λ d e. (D.faults d ≤ D.faults e) × FilesAll (D.faults d) (D.faults e) (D.filed d) (D.filed e) (map pair_of entries.now)) desks.old desks.new) }
    ensures part { OnErr result (AtFirst (λ d e. (D.faults d ≤ D.faults e) × ((kept : List Pair) × FilesSome (D.filed d) (D.filed e) (map pair_of entries.now) kept)) desks.old desks.new) }
    ensures asked { map (λ d. D.asked d) desks.new ≡ map (λ d. D.asked d) desks.old }
{
    keep_all::<W, D>(&mut desks[0], entries)
}
