//! JSON values of expressions (RFC 8259).
//!
//! ```text
//! json_text(alloc, &e)?.as_str()      // for `{ a = 1, b = [ True ] }`: {"a":1,"b":[true]}
//! ```
#![tactic(auto)]

mod faults;
mod forms;
pub mod laws;
mod paths;
mod texts;
mod values;

pub use faults::JsonFault;
pub use texts::json_text;
pub use values::to_json;

#[cfg(test)]
mod tests;
