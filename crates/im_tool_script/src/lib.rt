//! What does a script print, when it is run? What is `imdrill`, as a function of its words and of the runtime?
//!
//! `drill_text` reads a script, runs its lives by `drill` or `drill_store`, whichever sort it has (`is_raw`), and prints what they answer; of a
//! script with a bad line it prints the number of the first. The exit status is 1 at most.
//!
//! `drill_program` is all of `imdrill` but its `main`: it reads the words of the command line, finds the script, has it run by
//! `drill_text`, or stopped everywhere by `im_tool_every`, and answers the exit status, 2 at most. What is printed is tested, and stands in no
//! clause.
#![tactic(auto)]

mod imdrill;
mod store_text;
mod text;
mod why_bad;

pub use imdrill::drill_program;
pub use text::drill_text;
