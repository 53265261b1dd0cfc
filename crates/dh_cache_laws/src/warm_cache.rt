//! Laws of runs with a cache that was honestly written.
ghost use Rattle.dh_cache_laws.specs.WarmAnswers.{WarmAnswers};
ghost use Rattle.dh_cache_laws.specs.WarmCache.{HonestEntries, WarmKeys, WarmRoot, WarmEnd, WarmDigests};

/// With a cache that was honestly written the keys that a run visits, and its root, come to what they come to without a cache, but for the
/// names of binders.
pub fn warm_roots()
    ensures keys { WarmKeys }
    ensures root { WarmRoot }
    ensures end { WarmEnd }
{}

/// Where the root is ready with a cache that was honestly written and without one, the same digests are written behind its imports.
pub fn warm_digests()
    ensures { WarmDigests }
{}

/// A command that succeeds without a cache succeeds with one that was honestly written, unless it names a limit, and writes the same but
/// for the names of binders.
pub fn warm_answers()
    ensures { WarmAnswers }
{}

/// Honest entries are what the resolver gives without them, but for the names of binders.
pub fn honest_entries()
    ensures { HonestEntries }
{}
