//! Why a store was not opened.

ghost use Rattle.std.specs.Prelude.{◌≡◌};
ghost use Rattle.im_open.specs.Refusals.{fault_in};

use im_base_types::Fault;
use im_files_disk::OpenError;
use thiserror::Error;

/// What kept a program from the store of a folder, in words for a user.
#[derive(Debug, Drop, Error)]
pub enum NotOpened {
    /// The files of the folder were not opened.
    #[error("{0}")]
    Files(OpenError),
    /// Their store was not.
    #[error("{0}")]
    Store(Fault),
    /// It was opened, and what was due then was refused: the other log is one of the first format still, or the next opening has as much to do as this one.
    #[error("it was opened, and what was due then was refused: {0}")]
    Upkeep(Fault),
}

impl NotOpened {
    /// The refusal, as programs print it.
    pub fn fault(&self) -> Fault
        ensures { result ≡ fault_in self.now }
    {
        match self {
            NotOpened::Files(error) => error.fault(),
            NotOpened::Store(fault) => *fault,
            NotOpened::Upkeep(fault) => *fault,
        }
    }
}
