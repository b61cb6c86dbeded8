//! Why a call was refused.

ghost use Rattle.std.specs.Prelude.{◌≡◌};
ghost use Rattle.im_base_types.specs.Faults.{number_of};

use thiserror::Error;

/// A refusal. Its number is what programs print. Which refusals a call can answer, and what is left after each, its contract says.
#[derive(Clone, Copy, Debug, PartialEq, Eq, Error)]
pub enum Fault {
    /// No active transaction has that number, or it has nothing to go on with.
    #[error("no active transaction of that number")]
    NoTransaction,
    /// The transaction was answered `Die`: only a Rollback is taken.
    #[error("the transaction must roll back")]
    MustRollBack,
    /// A key or a bound has 0 bytes or more than 255.
    #[error("a key has 1 to 255 bytes")]
    KeyLength,
    /// The transaction is rolling back: only a Continue is taken.
    #[error("the transaction is rolling back")]
    RollingBack,
    /// An insert needs pages past those that are allowed.
    #[error("no page is left")]
    PagesFull,
    /// Page numbers, levels or transaction numbers are used up.
    #[error("numbers are used up")]
    Capacity,
    /// An append would pass log position 2^62. The log takes no more.
    #[error("the log is full")]
    LogFull,
    /// A call of the disk failed. What it wrote may or may not be kept.
    #[error("a call of the disk failed")]
    Device,
    /// There was no memory. Nothing was changed.
    #[error("out of memory")]
    Memory,
    /// An earlier call failed: open the store again.
    #[error("the store has failed: open it again")]
    Failed,
    /// The bytes of the files are no store of this format.
    #[error("the files hold no store")]
    NotAStore,
    /// As many transactions are active as may be, or as many shares were handed out.
    #[error("too many transactions are active, or shares handed out")]
    TooMany,
    /// The number of frames is not 8 to 1,024.
    #[error("the pool has 8 to 1,024 frames")]
    PoolSize,
    /// The trace of a front holds as many steps as it takes, or as many were cut as may be.
    #[error("the trace is full")]
    TraceFull,
    /// A transaction is active.
    #[error("a transaction is active")]
    Busy,
    /// A line that the grammar of scripts does not have.
    #[error("a bad line")]
    BadScript,
    /// A structure change of the transaction's own is under way: only a Continue is taken.
    #[error("a structure change of the transaction is under way")]
    Unfinished,
    /// The number of workers is not 1 to 16.
    #[error("redo has 1 to 16 workers")]
    Workers,
    /// Another opening holds the store, in this program or in another. It can be opened once that one has ended.
    #[error("the store is open elsewhere")]
    Locked,
}

impl Fault {
    /// The number of the refusal, as programs print it.
    pub fn number(&self) -> u8
        ensures { result ≡ number_of self.now }
    {
        match self {
            Fault::NoTransaction => 1,
            Fault::MustRollBack => 2,
            Fault::KeyLength => 3,
            Fault::RollingBack => 4,
            Fault::PagesFull => 5,
            Fault::Capacity => 6,
            Fault::LogFull => 7,
            Fault::Device => 8,
            Fault::Memory => 9,
            Fault::Failed => 10,
            Fault::NotAStore => 11,
            Fault::TooMany => 12,
            Fault::PoolSize => 13,
            Fault::TraceFull => 14,
            Fault::Busy => 15,
            Fault::BadScript => 16,
            Fault::Unfinished => 17,
            Fault::Workers => 18,
            Fault::Locked => 19,
        }
    }
}
