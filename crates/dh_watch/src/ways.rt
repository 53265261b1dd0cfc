//! How far the walks of texts are known to come, by the numbers of their keys.
//!
//! A run takes up a key again after each import that it waited for. Its walk then goes on where it stopped, so that a text of many
//! imports is walked once.

ghost use Rattle.std.specs.Prelude.{◌≡◌, ◌<◌, ◌⊎◌, ℕ, length};
ghost use Rattle.dh_record.specs.Entering.{keys_in};
ghost use Rattle.dh_record.specs.Reading.{IsReach};
ghost use Rattle.dh_record.specs.Rows.{key_named, rows_of};
ghost use Rattle.dh_watch_laws.specs.Running.{stage_at};
ghost use Rattle.dh_watch_runs.specs.Progressing.{IsProgress};
ghost use Rattle.dh_watch_rows.specs.KeptRows.{IsGood, kept_of};
ghost use Rattle.dh_watch.specs.Sources.{IsSettled};
ghost use Rattle.dh_watch.specs.Ways.{AreWays, way_at};

use dh_demand::Headway;
use dh_record::{Kind, Reach};
use dh_watch_rows::Rows;
use dh_watch_runs::Progress;

/// What is left to do for a key, from where the walk of its text comes; how far it comes then is noted.
pub(crate) fn look_on(rows: &Rows, ways: &mut Vec<Headway>, key: u32) -> Reach
    requires good { IsGood rows.now }
    requires inside { key < length rows.now.keys }
    requires ways { AreWays (kept_of rows.now) (keys_in rows.now.keys) ways.old.items }
    ensures reach { IsReach (rows_of rows.now.keys) (key_named rows.now.keys key) (stage_at (kept_of rows.now) (key_named rows.now.keys key)) result }
    ensures ways { AreWays (kept_of rows.now) (keys_in rows.now.keys) ways.new.items }
{
    let (reach, way) = rows.reach(key, way_at(ways.as_slice(), key));
    note_way(ways, key, way);
    reach
}

/// How far a key has come that lacks no part of the record.
pub(crate) fn progress(rows: &Rows, ways: &mut Vec<Headway>, key: u32) -> Progress
    requires good { IsGood rows.now }
    requires inside { key < length rows.now.keys }
    requires ways { AreWays (kept_of rows.now) (keys_in rows.now.keys) ways.old.items }
    requires settled { IsSettled (stage_at (kept_of rows.now) (key_named rows.now.keys key)) }
    ensures progress { IsProgress (keys_in rows.now.keys) (stage_at (kept_of rows.now) (key_named rows.now.keys key)) result }
    ensures ways { AreWays (kept_of rows.now) (keys_in rows.now.keys) ways.new.items }
{
    match look_on(rows, ways, key) {
        Reach::Due(Kind::Finish) => Progress::Due,
        Reach::Due(Kind::Fetch | Kind::Look) => unreachable!(),
        Reach::Wait(next) => Progress::Wait(next),
    }
}

// How far the walk of the text of a key is known to come.
fn way_at(ways: &[Headway], n: u32) -> Headway
    ensures { result ≡ way_at ways.now n }
{
    match ways.get(n as usize) {
        Some(way) => *way,
        None => Headway::Unknown,
    }
}

// Notes how far the walk of the text of a key comes. Where memory is wanting nothing is noted.
fn note_way(ways: &mut Vec<Headway>, n: u32, way: Headway)
    ensures { (m : ℕ) → (way_at ways.new.items m ≡ way_at ways.old.items m) ⊎ ((m ≡ n) × (way_at ways.new.items m ≡ way)) }
{
    let n = n as usize;
    'unknown: while ways.len() <= n {
        let Ok(()) = ways.push(Headway::Unknown) else {
            return;
        };
    }
    ways[n] = way;
}
