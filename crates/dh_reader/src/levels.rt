//! The levels of the grammar that a place may ask for.

/// Where any expression may stand.
pub const ANY: u32 = 0;
/// Where any operator may stand, and no form that runs on to the right.
pub const OPERATOR: u32 = 1;
/// Where an application may stand.
pub const APPLICATION: u32 = 14;
/// Where an import or a completion may stand.
pub const IMPORT: u32 = 15;
/// Where a selection may stand.
pub const SELECTION: u32 = 16;
