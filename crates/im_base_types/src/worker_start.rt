//! What a worker does first.

/// A worker calls it before its first step, with its number, from 0. A test that wants workers to meet has its own.
pub trait WorkerStart {
    fn worker_starts(&self, worker: u64);
}

/// Does nothing.
#[derive(Clone, Copy, Debug)]
pub struct StartAtOnce;

impl WorkerStart for StartAtOnce {
    fn worker_starts(&self, _worker: u64) {}
}
