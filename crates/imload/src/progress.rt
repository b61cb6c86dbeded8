//! What a user who looks on is told while a load runs.

use im_base_types::WorkerStart;
use std::io::IsTerminal;

/// Says on standard error which of the threads have begun, where that is a terminal.
#[derive(Clone, Copy)]
pub(crate) struct Progress<'a> {
    rt: &'a HostRuntime,
    threads: u64,
}

impl<'a> Progress<'a> {
    /// Of a load of so many threads.
    pub(crate) fn new(rt: &'a HostRuntime, threads: u64) -> Progress<'a> {
        Progress { rt, threads }
    }
}

impl WorkerStart for Progress<'_> {
    fn worker_starts(&self, worker: u64) {
        let rt = self.rt;
        if rt.stderr().is_terminal() {
            let _ = eprintln!(rt;
                "imload: thread {} of {} has begun",
                worker.saturating_add(1),
                self.threads
            );
        }
    }
}
