//! What does a line that asks for a step say, and how is a reply printed?
//!
//! The words of lines: how a script, and a program that reads steps, writes a step, a key, a number and bytes, and how a reply and
//! entries are printed.
//!
//! `step_line` decides the grammar of the lines that ask for steps: what it reads is spelled as the grammar says (`SpellsStep`), and
//! no line spells what it refuses as bad. So do `number_of` (`IsNumber`), `page_of` (`IsPageNumber`) and `bytes_of` for single words;
//! `first_piece` cuts a text at a separator. `reply_text`, `entries_text` and `report_text` print: the text of an entry is a clause
//! (`put_entry`), and it is written whole; the other words are tested and stand in no clause.
//!
//! This crate knows the steps and the replies of a store of many transactions (`im_base_steps`), and no store.
#![tactic(auto)]

mod digits;
mod entry_lines;
mod entry_text;
mod key_word;
mod number;
mod pieces;
mod reply_words;
mod report_line;
mod step_words;

pub use digits::bytes_of;
pub use entry_lines::entries_text;
pub use number::number_of;
pub use pieces::first_piece;
pub use reply_words::reply_text;
pub use report_line::report_text;
pub use step_words::{count_of, page_of, step_line};
