//! Runs: with an allocator alone, or watched from outside.

use std::alloc::Global;

/// How many brackets may nest in a line of the worked cases.
const DEPTH_OF_CASES: usize = 256;

/// How lines are run. A watched run reports on standard error when a call is made and when it has
/// answered, and checks that the call left what it borrowed unchanged.
#[derive(Clone, Copy)]
pub struct Run<'a> {
    alloc: Global,
    depth: usize,
    watcher: Option<&'a HostRuntime>,
}

impl<'a> Run<'a> {
    /// A run of worked cases that is not watched.
    pub fn alone(alloc: Global) -> Run<'a> {
        Run::within(alloc, DEPTH_OF_CASES)
    }

    /// A run that is not watched, of lines in which so many brackets may nest.
    pub fn within(alloc: Global, depth: usize) -> Run<'a> {
        Run {
            alloc,
            depth,
            watcher: None,
        }
    }

    /// A run of worked cases that reports each call on standard error.
    pub fn watched(rt: &'a HostRuntime) -> Run<'a> {
        Run {
            alloc: rt.alloc(),
            depth: DEPTH_OF_CASES,
            watcher: Some(rt),
        }
    }

    /// The allocator that lines are read and answered with.
    pub fn alloc(self) -> Global {
        self.alloc
    }

    /// How many brackets may nest in a type, in a value and in the text of a filter.
    pub fn depth(self) -> usize {
        self.depth
    }

    /// Whether this is a watched run.
    pub fn is_watched(self) -> bool {
        self.watcher.is_some()
    }

    /// Writes a word on standard error if the run is watched.
    pub fn report(self, word: &str) {
        if let Some(rt) = self.watcher {
            let _ = rt.eprintln(word);
        }
    }
}
