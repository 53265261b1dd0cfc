//! Files as words of a command line: which words name a file, and the text of the import that such a word stands for.
//!
//! ```text
//! check_files(2, &words)             // Ok: each word spells a location; Err(k): the word of this number does not
//! file_text(alloc, "a")?             // `./a`
//! file_text(alloc, "../a/b")?        // `../a/b`
//! ```
#![tactic(auto)]

mod paths;
mod words;

pub use words::{check_files, file_text};

#[cfg(test)]
mod tests;
