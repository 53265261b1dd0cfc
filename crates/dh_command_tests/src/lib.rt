//! Tests of what the cases of `dhall_cases` cannot say: files of cases that are refused, the program's streams and
//! words, texts from servers on loopback, workers beside each other, and worlds that tell what they have.
#![tactic(auto)]

#[cfg(test)]
mod case_files;
#[cfg(test)]
mod program;
#[cfg(test)]
mod streams;
#[cfg(test)]
mod web;
#[cfg(test)]
mod workers;
#[cfg(test)]
mod worlds;
