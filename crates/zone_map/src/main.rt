// SPDX-License-Identifier: Apache-2.0
// SPDX-FileCopyrightText: Copyright the Vortex contributors; ported to Rattle and changed
//! Searches files of records by an index of their zones, and reads only the zones it must.
#![tactic(auto)]

mod answering;
mod column_lists;
mod commands;
mod file_names;
mod file_searches;
mod files;
mod grown;
mod index_files;
mod indexing;
mod lines;
mod loading;
mod locating;
mod matching;
mod preparing;
mod program_errors;
mod searching;
mod showing;
mod streams;
mod telling;
mod watching;

pub use commands::{Asked, asked_in};
use program_errors::FAILED;
pub use program_errors::ProgramError;
use std::process::ExitCode;
use std::{env, io};

/// Does what the command line asks.
fn main(rt: HostRuntime) -> ExitCode {
    let words = match words_given(&rt) {
        Ok(words) => words,
        Err(error) => {
            let _ = rt.eprintln(error);
            return ExitCode::from(FAILED);
        }
    };
    match asked_in(rt.alloc(), &words) {
        Ok(asked) => answer(&rt, &asked),
        Err(error) => {
            let _ = error.print(&rt);
            if error.use_stderr() {
                ExitCode::from(FAILED)
            } else {
                ExitCode::SUCCESS
            }
        }
    }
}

/// The words of the command line. The first is the name of the program.
fn words_given(rt: &HostRuntime) -> io::Result<Vec<String>> {
    Ok(env::args(rt)?.collect(rt.alloc())?)
}

/// Does what is asked. An error is told on standard error.
fn answer(rt: &HostRuntime, asked: &Asked<'_>) -> ExitCode {
    let done = match asked {
        Asked::Index(request) => indexing::index_files(rt, request),
        Asked::Search(request) => searching::search(rt, request),
        Asked::Show(file) => showing::show(rt, *file),
    };
    match done {
        Ok(code) => code,
        Err(fault) => {
            let _ = rt.eprintln(fault);
            ExitCode::from(FAILED)
        }
    }
}
