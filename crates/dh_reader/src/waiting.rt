//! Tokens within a production, where one is awaited that is no part's.

mod entries;
mod imports;
mod lets;
mod projections;
mod quantifiers;
mod records;
mod texts;
mod tokens;
mod unions;
mod updates;
mod waits;

pub use waits::waited;
