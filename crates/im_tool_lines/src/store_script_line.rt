//! What one line of a script of lives of a store says.

use crate::store_life::{LifeOptions, StoreLine};
use im_base_model_disk::Stop;
use im_base_types::FileId;

/// A line of a script of lives of a store.
#[derive(Drop)]
pub enum StoreScriptLine {
    /// `life [frames N] [max N] [fail N] [failread N] [stepped] [group] [dense] [workers N]`: a life of a store.
    Life(LifeOptions),
    /// `set log HEX` or `set pages HEX`: the bytes of that file before the first life.
    Set(FileId, Vec<u8>),
    /// A step, `calls`, `page P`, `redo`, or `log`.
    Within(StoreLine),
    /// `stop N LEN FILL`: the last line of a life. No call has the number 0, which stands for `end`.
    Stop(Stop),
}
