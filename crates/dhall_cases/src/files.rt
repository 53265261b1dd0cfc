//! The files that the words of the program name.

use crate::runs::run_row;
use dh_cases::{Case, Tally, read_cases, report_of};
use std::rt::{Env, Files};
use std::sync::Wait;
use std::thread::Threads;
use std::{env, fs, io};

/// Runs each command of a case on each of its rows.
fn run_case<R: Print + AllocGlobal + Threads + Wait + Sync>(
    rt: &R,
    name: &str,
    case: &Case,
) -> io::Result<Tally> {
    let alloc = rt.alloc();
    let mut tally = Tally::NONE;
    for row in &case.rows {
        for words in &case.commands {
            let words = words.as_slice();
            let ran = run_row(rt, alloc, case, words, row);
            let report = report_of(alloc, name, case, row, words, &ran)?;
            rt.print(report.text.as_str())?;
            tally = tally.plus(&report.tally);
        }
    }
    Ok(tally)
}

/// Runs the cases of a file, and prints their count.
fn run_file<R: Files + Print + AllocGlobal + Threads + Wait + Sync>(
    rt: &R,
    name: &str,
) -> io::Result<Tally> {
    let text = fs::read_to_string(rt, name)?;
    let cases = match read_cases(rt.alloc(), text.as_str()) {
        Ok(cases) => cases,
        Err(fault) => {
            println!(rt; "{name}: {fault}")?;
            return Ok(Tally::BROKEN);
        }
    };
    let mut tally = Tally::NONE;
    for case in &cases {
        tally = tally.plus(&run_case(rt, name, case)?);
    }
    let (runs, differ) = (tally.runs, tally.differ);
    println!(rt; "{name}: {runs} runs, {differ} differ")?;
    Ok(tally)
}

/// Runs the cases of the files that the words name, and prints the count of all.
pub(crate) fn run_files<R: Files + Env + Print + AllocGlobal + Threads + Wait + Sync>(
    rt: &R,
) -> io::Result<Tally> {
    let mut tally = Tally::NONE;
    for name in env::args(rt)?.skip(1) {
        tally = tally.plus(&run_file(rt, name.as_str())?);
    }
    let (runs, differ) = (tally.runs, tally.differ);
    println!(rt; "{runs} runs, {differ} differ")?;
    Ok(tally)
}
