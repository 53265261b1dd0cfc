//! Tests of the table of imports, of what a worker does for a task of it, of the shelf, of files over desks, and of runs with workers in
//! threads.
#![tactic(auto)]

#[cfg(test)]
mod batches;
#[cfg(test)]
mod gates;
#[cfg(test)]
mod sessions;
#[cfg(test)]
mod shelves;
#[cfg(test)]
mod table_runs;
#[cfg(test)]
mod tables;
#[cfg(test)]
mod works;
