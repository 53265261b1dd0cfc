//! Laws of runs of the command.

ghost use Rattle.dh_top.specs.Generating.{GeneratedDigests};
ghost use Rattle.dh_top.specs.SettledRuns.{SettledRuns};
ghost use Rattle.dh_top.specs.WarmBatches.{WarmBatches};
ghost use Rattle.dh_top.specs.WarmRuns.{WarmRunsOn, WarmRuns};

/// Where the cache was honestly written and the command would succeed without it, a run ends well unless a device fails, memory is
/// out or it names a limit; and then it writes the same, but for the names of binders. So it is with the text of an input that tells it.
pub fn warm_runs()
    ensures on { WarmRunsOn }
    ensures told { WarmRuns }
{}

/// Where the cache was honestly written and each file would have a digest without it, a run of `batch` ends well unless a device fails,
/// memory is out or it names a limit; and then it writes these digests.
pub fn warm_batches()
    ensures { WarmBatches }
{}

/// Two command lines of `steps` whose second line is `normal` print the same first line of one input.
pub fn settled_runs()
    ensures { SettledRuns }
{}

/// The line of the digest that `gen` writes depends on its number alone: not on the workers, on how they interleave, or on the desks of
/// the run.
pub fn generated_digests()
    ensures { GeneratedDigests }
{}
