//! What one line of a script says.

use crate::Batch;
use im_base_model_disk::Stop;
use im_base_types::FileId;

/// A line of a script.
#[derive(Debug, Drop)]
pub enum Line {
    /// `raw`: a life over the gate alone.
    Raw,
    /// `set log HEX` or `set pages HEX`: the bytes of that file before the first life.
    Set(FileId, Vec<u8>),
    /// `put HEX`: puts one batch.
    Put(Batch),
    /// `calls`: the device calls of the life so far.
    Calls,
    /// `stop N LEN FILL`: the last line of a life. No call has the number 0, which stands for `end`.
    Stop(Stop),
}
