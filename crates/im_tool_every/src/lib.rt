//! Is each opening good after every stop of a life of a store, and after every stop of these openings? And where any one call fails?
//!
//! `every_text` takes a script of one life without a stop. It stops that life within each of its device calls, in both lengths and with three
//! fills each, and opens the store again; then it stops that opening within each of its own device calls in as many ways, and opens once more.
//! Each opening that was not stopped is judged: its entries have to be those of a front of the effects whose Commit the life asked, with all
//! that were acknowledged (`IsAllowed` of `im_tool_judge`), by the life's lines and replies alone.
//!
//! `every_failure` makes a life again and again, in which each time another device call fails, or another read, and judges the answers
//! (`is_disturbed`) and the opening after it: a failure that nothing tells is bad. Then each call of the opening after the whole life fails in turn.
//!
//! `sweep_text` does either to the last life of a script, in each setting that its words leave open: frames, group, workers, the log's buffer. What
//! that life begins with (`Start`) stands before what it asked, as one effect that was acknowledged. It stops a life and an opening at their ends
//! too, where a call that was answered and not synced shows, and leaves single bytes as written (`Stops::Everywhere`): as a stop of `ModelDisk` leaves one
//! fill at all places that are not as synced, `torn` makes of two disks that one stop left, with another fill each, a third that it may have left too: of
//! each file, at each place stands the byte of one of the two (`torn_file`, `IsTornOf`).
//!
//! It stands on `im_tool_judge` for the verdicts, on `im_tool_drill` for lives, on `im_files_belonging` for the guards, on the engine and the model disk. What it prints is tested, and
//! stands in no clause. Of a sweep it is said which calls were stopped, or failed, and what was counted (`IsEveryStop`, `IsEveryRestart`, `IsEveryFailure`);
//! a life whose opening is refused for more than its frames or workers is bad too. Of an opening each verdict is the judge's (`IsJudged`), and a stopped one leaves what the stop does (`IsStopped`). What a stop left
//! is bad too where the guards of a folder of these files would refuse it (`IsGuarded`); each verdict is counted (`IsJudgedIn`).
#![tactic(auto)]

mod every;
mod failing;
mod guards;
mod judged_opening;
mod settings;
mod start;
mod sweep;
mod text;
mod torn_disk;
mod ways;

pub use every::{Counts, every_restart, every_stop};
pub use failing::every_failure;
pub use start::Start;
pub use sweep::{Sweep, sweep_text};
pub use text::every_text;
pub use ways::Stops;
