//! The numbers of a load.

ghost use Rattle.std.specs.Prelude.{◌≡◌, ◌≤◌, ◌↔◌, false, IfSome, IsSome};

/// How many workers there are, 1 to 16, how many transactions each makes, 1 to 500, how many rounds a flusher makes, at most 100, and
/// whether Commits wait for a force. A value of it is within these ranges.
#[derive(Clone, Copy, Debug, PartialEq, Eq)]
pub struct LoadArgs {
    threads: u64,
    txns: u64,
    flush: u64,
    group: bool,
    pub ghost threads_fit: { (1 ≤ threads) × (threads ≤ 16) },
    pub ghost txns_fit: { (1 ≤ txns) × (txns ≤ 500) },
    pub ghost flush_fits: { flush ≤ 100 },
}

impl LoadArgs {
    /// These numbers, where each is in its range. Commits do not wait.
    pub fn new(threads: u64, txns: u64, flush: u64) -> Option<LoadArgs>
        ensures same { IfSome result (λ a. (a.threads ≡ threads) × (a.txns ≡ txns) × (a.flush ≡ flush) × (a.group ≡ false)) }
        ensures taken { IsSome result ↔ ((1 ≤ threads) × (threads ≤ 16) × (1 ≤ txns) × (txns ≤ 500) × (flush ≤ 100)) }
    {
        if threads < 1 || threads > 16 || txns < 1 || txns > 500 || flush > 100 {
            return None;
        }
        Some(LoadArgs {
            threads,
            txns,
            flush,
            group: false,
        })
    }

    /// The same, where Commits wait for a force or not.
    pub fn with_group(self, group: bool) -> LoadArgs
        ensures { (result.threads ≡ self.threads) × (result.txns ≡ self.txns) × (result.flush ≡ self.flush) × (result.group ≡ group) }
    {
        LoadArgs {
            threads: self.threads,
            txns: self.txns,
            flush: self.flush,
            group,
        }
    }

    /// How many workers there are.
    pub fn threads(&self) -> u64
        ensures same { result ≡ self.now.threads }
        ensures range { (1 ≤ result) × (result ≤ 16) }
    {
        self.threads
    }

    /// How many transactions each worker makes.
    pub fn txns(&self) -> u64
        ensures same { result ≡ self.now.txns }
        ensures range { (1 ≤ result) × (result ≤ 500) }
    {
        self.txns
    }

    /// How many rounds the flusher makes.
    pub fn flush(&self) -> u64
        ensures same { result ≡ self.now.flush }
        ensures range { result ≤ 100 }
    {
        self.flush
    }

    /// Whether Commits wait for a force.
    pub fn group(&self) -> bool
        ensures { result ≡ self.now.group }
    {
        self.group
    }
}
