//! The units that typing and normalising may spend.

/// The units that are left for typing or normalising one item.
#[derive(Debug, Drop)]
pub struct Purse {
    pub left: u64,
}
