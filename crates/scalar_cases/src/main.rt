// SPDX-License-Identifier: Apache-2.0
// SPDX-FileCopyrightText: Copyright the Vortex contributors; ported to Rattle and changed
//! Reads worked cases, one a line, and says which of them do not come out as written. Given the
//! word `--memory` it watches each call, as `Run` says.
#![tactic(auto)]

use rows::{RowsError, fault_line, read_all, write_out};
use std::process::ExitCode;
use std::rt::Env;
use worked_cases::{Run, run_lines};

/// Runs the lines of standard input. The status is 0 if no case is wrong, else 1.
fn main(rt: HostRuntime) -> ExitCode {
    match run_input(&rt) {
        Ok(true) => ExitCode::SUCCESS,
        Ok(false) => ExitCode::FAILURE,
        Err(fault) => {
            let _ = rt.eprintln(fault_line(&fault));
            ExitCode::FAILURE
        }
    }
}

/// Runs the lines of standard input, and tells whether no case is wrong, or why it stops.
fn run_input(rt: &HostRuntime) -> Result<bool, RowsError> {
    let input = read_all(rt.alloc(), &mut rt.stdin())?;
    let run = if is_watched(rt) {
        Run::watched(rt)
    } else {
        Run::alone(rt.alloc())
    };
    let report = run_lines(run, &input)?;
    write_out(&mut rt.stdout(), &report.text)?;
    Ok(report.is_right)
}

/// Whether the first word of the command line is `--memory`.
fn is_watched(rt: &HostRuntime) -> bool {
    let mut word = [0; 16];
    match rt.arg(1, &mut word) {
        Ok(length) => word[..length] == b"--memory"[..],
        Err(_) => false,
    }
}
