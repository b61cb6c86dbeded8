//! Over which disks does `imstore` look at a store, and what does it tell of its files without opening it?
//!
//! `WatchedDisk` is the files of a folder, with a line that tells how far an opening has read the log; `CopyDisk` the files of a copy or of a load, which tell what fails, and
//! `NoCopy` why there is no copy. `Causes` tells why a call of a disk failed, `ProgressLine` how far a long task is. `survey_files` reads the files of a store
//! as they stand, and the texts here tell what it found; `trim_program` cuts the logs of a store, and so does `Ending` after one was closed.
//!
//! It stands on `im_tool_look` for what the bytes of a store's files say. No store is opened here, so it is proved beside the engine. What goes to which
//! stream is tested in im_test_tool, and stands in no clause.
#![tactic(auto)]

mod causes;
mod copy_disk;
mod copy_target;
mod ending;
mod progress;
mod scratch_files;
mod survey;
mod telling;
mod trim;
mod watched_disk;
mod watched_files;

pub use causes::{Cause, Causes};
pub use copy_disk::CopyDisk;
pub use copy_target::{NoCopy, begun_copy, begun_load, clear_copy, named_copy, named_load};
pub use ending::Ending;
pub use progress::{Progress, ProgressLine, Untold};
pub use scratch_files::ScratchFiles;
pub use survey::{Broken, Surveyed, broken_text, numbers_text, survey_files, whole_text};
pub use telling::{print_refused_opening, tell, tell_unopened, tell_unread};
pub use trim::{log_bytes, trim_program};
pub use watched_disk::{Opening, WatchedDisk};
pub use watched_files::WatchedFiles;
