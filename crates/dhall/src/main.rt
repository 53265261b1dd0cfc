//! The `dhall` program: it hands the words, the standard streams and desks over files, the environment, plain HTTP and the
//! cache folder to the command, and exits with its status.
//!
//! ```text
//! printf '1 + 2' | dhall encode | dhall decode
//! printf '[ ./a.dhall, env:B ]' | dhall normalize --workers 8
//! ```
#![tactic(auto)]

use dh_desks::{Folders, make_desks};
use dh_ports::{OpenGate, Silent};
use dh_streams::{Source, Target};
use dh_top::{exit_code, lack_memory, run_program};
use std::env;
use std::process::ExitCode;

fn main(rt: HostRuntime) -> ExitCode {
    let alloc = rt.alloc();
    let mut input = Source::new(rt.stdin());
    let mut out = Target::new(rt.stdout());
    let mut err = Target::new(rt.stderr());
    let Ok(folders) = Folders::read(&rt) else {
        return exit_code(lack_memory(&mut out, &mut err));
    };
    let Ok(mut desks) = make_desks(rt, alloc, &folders) else {
        return exit_code(lack_memory(&mut out, &mut err));
    };
    run_program::<_, Silent, _, _, _, _, _>(
        &rt,
        alloc,
        env::args(&rt),
        &mut desks,
        &OpenGate,
        &mut input,
        &mut out,
        &mut err,
    )
}
