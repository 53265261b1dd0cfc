//! Tests of the normalisers and of typing, from words: each operation behind what it is on.
#![tactic(auto)]

#[cfg(test)]
mod indices;
#[cfg(test)]
mod normal_forms;
#[cfg(test)]
mod plain_forms;
#[cfg(test)]
mod spliced_texts;
#[cfg(test)]
mod texts;
#[cfg(test)]
mod types;
#[cfg(test)]
mod written;
