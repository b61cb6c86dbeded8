//! What does a user of `imstore` write, and what does it answer him, whatever store there is?
//!
//! `parse_options` reads the command line, `LineInput` is a reader of lines, `asked_in` reads what a line asks for, a step or a transaction by itself, in the
//! grammar of steps or in the notation of keys that users type, and `why_no_step` tells why a line asks for nothing. `print_reply` and its kin write replies, prompts and refusals in the
//! `Manner` that is wanted; `write_head`, `write_part` and `EntryText` are entries as text, in two forms, written and read.
//!
//! It stands on `im_tool_words` for the lines of steps and the words of replies, on `im_tool_look` for the notation of keys, and on `clap` for command
//! lines. No disk and no engine is needed here, so it is proved beside them. Its words are tested in im_test_answers, and stand in no clause.
#![tactic(auto)]

mod asked;
mod entry_text;
mod help;
mod line_input;
mod manner;
mod no_step;
mod options;
mod replies;
mod version;
mod whole;
mod words_step;

pub use asked::{Asked, asked_in, has_noted_key, manner_of_line};
pub use entry_text::{EntryText, Form, Next, WhyBad, write_end, write_head, write_part};
pub use line_input::{LineInput, without_newline};
pub use manner::{
    Manner, ONLY_READ, end_prompt, is_help, print_prompt, print_refused, refuse, refuse_change,
    run_help,
};
pub use no_step::{NoStep, why_no_step};
pub use options::{MOST_MIB, Numbers, Options, Present, Task, parse_options};
pub use replies::{print_entries, print_reply, print_stop};
pub use version::VERSION;
pub use whole::Whole;
