//! What does a line of a script say, what script of lives do the lines of a text make, and what do lives over batches alone answer?
//!
//! A script sets the bytes of the files and then has lives, one after the other, each on what the stop of the one before
//! has left. A life opens, runs its lines, and ends by a stop within a device call or after the last line. There are two sorts: lives over the
//! gate alone, which put batches (`Script`), and lives of a store, which make steps (`StoreScript`); a text is of the first sort where a `raw`
//! line stands in it, and no `life` line before that (`is_raw`, by `IsRaw`).
//!
//! `parse_line` and `parse_store_line` decide the grammar, with the lines of steps as `im_tool_words` reads them: what they read is spelled as the
//! grammar says (`SpellsLine`, `SpellsStore`), and no line spells what they refuse as bad. `Script::parse` and `StoreScript::parse` read exactly
//! the scripts, both by `read_lines` over what takes a line of theirs (`LineReader`): a script is that of the text's lines (`IsScript`, `IsStoreScript`), each of which may stand where it stands (`MayStand`), and
//! the number that is refused is that of the first line which is bad (`IsFirstBad`, `IsFirstBadOfStore`). `reason_of` says in words why a line
//! is bad; its text is tested and stands in no clause.
//!
//! `drill` promises, of a script whose files stand for some batches at first (`StandsFor`): each life leaves the batches
//! from before it and after them a front of those that it asked to put, in order, with every one that was answered `put ok`
//! (`BatchesSurvive`, `RawLives`), whatever the stop leaves of the places that were not synced; and the last opening finds what the
//! last life left, or was refused for want of memory or by the disk. Each life has its answers and each line its reply, up to a
//! line into which the stop fell (`EachAnswered`). Every answer comes from a call of a gate (`IsRawRun`). Within a life one fact is
//! kept (`IsLiving`): what a stop may leave now survives the life so far, and as long as the gate works, all that was asked was acknowledged.
//!
//! Of a life of a store there is here what it has in common: its stop, and the device call and the read that fail in it, armed (`arm_life`,
//! `has_come`), what an opening answers that did not succeed (`refused_opening`), which lines have replies (`AnsweredBy`), and on which disk the
//! next life begins (`IsNextDisk`). `StoreAnswers` has its opening's answer and one reply a line (`StoreReply`): each line has its reply, up to one into
//! which the stop fell (`StoreAnswered`), and what the life asked is what its own lines and replies show by the definition of lives (`shown_by_lines`,
//! `asked_by_life`): a step with its reply, or cut off by the stop.
//!
//! This crate stands on the gate's contracts over any disk, on the model disk with its stops, and on the steps of a store of many transactions
//! (`im_base_steps`); it knows no engine. `hex` reads digits.
#![tactic(auto)]

mod answers;
mod batch;
mod drilling;
mod grammar;
mod life_answers;
mod line;
mod line_reader;
mod lives;
mod opened_batches;
mod raw_life;
mod raw_line;
mod raw_text;
mod reason;
mod script;
mod script_error;
mod script_reading;
mod set_files;
mod set_words;
mod stop;
mod stop_words;
mod store_answers;
mod store_grammar;
mod store_life;
mod store_reading;
mod store_script;
mod store_script_line;

pub use answers::Drilled;
pub use batch::Batch;
pub use drilling::drill;
pub use grammar::parse_line;
pub use life_answers::{LifeAnswers, Opening, RawReply};
pub use line::Line;
pub use opened_batches::open_batches;
pub use raw_life::RawLife;
pub use raw_line::RawLine;
pub use raw_text::is_raw;
pub use reason::{reason_of, refused_line};
pub use script::Script;
pub use script_error::ScriptError;
pub use stop::{arm_life, has_come, refused_opening};
pub use store_answers::{StoreAnswers, StoreReply};
pub use store_grammar::parse_store_line;
pub use store_life::{LifeOptions, StoreLife, StoreLine};
pub use store_script::StoreScript;
pub use store_script_line::StoreScriptLine;
