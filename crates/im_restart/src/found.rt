//! What a restart finds in the log.

use im_log::LogFile;
use im_restart_analysis::{Analysed, Change, LastChanges};

/// The log after its last record, and what its records say.
#[derive(Drop)]
pub(crate) struct Found {
    pub log: LogFile,
    pub analysed: Analysed,
    /// The changes that the records from the redo point on made, the oldest first.
    pub changes: Vec<Change>,
    /// The last change of each page below the redo point.
    pub last: LastChanges,
}
