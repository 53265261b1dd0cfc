//! Tests of the calls on expressions that every other crate uses.
#![tactic(auto)]

#[cfg(test)]
mod copies;
#[cfg(test)]
mod shapes;
