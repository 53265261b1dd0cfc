//! Scripts of a watcher: lines that edit locations and ask them.
//!
//! ```text
//! set ./a 2E2F62      the bytes at a location are now these, in hexadecimal digits
//! drop ./a            nothing is there any more
//! ask ./a             what it is
//! ```
//!
//! [`read_script`] reads the bytes of a script to its orders, or tells the text's fault or the first line that is none of these.
#![tactic(auto)]

mod faults;
mod lines;
mod locations;
mod orders;
mod pieces;
mod scripts;

pub use faults::ScriptFault;
pub use locations::read_location;
pub use orders::Order;
pub use scripts::read_script;

#[cfg(test)]
mod tests;
