//! Where the imports of a text stand, and the nodes of its expression.
ghost use Rattle.dh_grammar.specs.Laws.Places.{PlacesStubs, ReadsOffsets, ReadsStretches, HasOffsets, OffsetsAreUnique, HasStretches, StretchesAreUnique};
ghost use Rattle.dh_syntax.specs.Text.Offsets.{locating};
ghost use Rattle.dh_syntax.specs.Text.Spans.{stretching};

/// The machines that note places accept the tokens that the machine over expressions accepts.
pub fn places_stubs()
    ensures offsets { PlacesStubs locating }
    ensures stretches { PlacesStubs stretching }
{}

/// The machine that notes locations finds where the imports stand.
pub fn reads_offsets()
    ensures { ReadsOffsets }
{}

/// The machine that notes nodes finds where they stand.
pub fn reads_stretches()
    ensures { ReadsStretches }
{}

/// The imports of a text that spells an expression stand somewhere.
pub fn has_offsets()
    ensures { HasOffsets }
{}

/// They stand in one way only.
pub fn offsets_are_unique()
    ensures { OffsetsAreUnique }
{}

/// The nodes of a text that spells an expression stand somewhere.
pub fn has_stretches()
    ensures { HasStretches }
{}

/// They stand in one way only.
pub fn stretches_are_unique()
    ensures { StretchesAreUnique }
{}
