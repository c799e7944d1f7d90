//! The program: it runs the case files that its words name, or with none does what each line of standard input says, and writes what
//! that gives to standard output.
#![tactic(auto)]

use replay_script::run_script;
use std::process::ExitCode;

fn main(rt: HostRuntime) -> ExitCode {
    match run_script(&rt) {
        Ok(()) => ExitCode::SUCCESS,
        Err(status) => ExitCode::from(status),
    }
}
