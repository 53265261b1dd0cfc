//! Which import of a text a walk asks next, which it wants, and the text with each value in its place.
//!
//! A [`Scan`] is an expression with one [`Edge`] for each of its imports: the number of the import's key and whether the import
//! is sane. `import_keys` lists the keys of the imports. The keys and their outcomes stand behind [`Results`]. Each call is one
//! pass over the imports, and contracts speak of the walk, its wants and its value as the definitions have them.
//!
//! ```text
//! match next(&scan, parent, &results) {
//!     Next::Need(key) => ..,                                  // the first key without an outcome
//!     Next::Fault(edge) => ..,                                // the import that decides
//!     Next::Ready => assemble(alloc, &scan, &results)?,
//! }
//! ```
#![tactic(auto)]

mod assembling;
mod comparing;
mod ends;
mod freezing;
mod headways;
mod key_lists;
mod marks;
mod nexts;
mod parts;
mod results;
mod resuming;
mod scans;
mod skips;
mod text_paths;
mod visitors;
mod visits;
mod walks;
mod wants;

pub use assembling::assemble;
pub use comparing::is_assembled;
pub use ends::Next;
pub use freezing::keys_behind;
pub use headways::Headway;
pub use key_lists::import_keys;
pub use marks::Marks;
pub use nexts::next;
pub use results::Results;
pub use resuming::next_from;
pub use scans::{Edge, Edges, Scan};
pub use text_paths::text_path;
pub use wants::{asked, wanted};

#[cfg(test)]
mod tests;
