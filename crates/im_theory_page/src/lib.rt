//! Which bytes are a page?
//!
//! The form of a page, as definitions over its bytes, and what follows from it, with no code that runs.
//!
//! - `Number`: numbers at places, big-endian. `Entry`: keys with values, what they take, and where a key has its place. `Form`: the slots
//!   and cells of a page that has entries (`IsPacked`). `Header`: the fields of each kind of page. `Page`: the bytes that are a page
//!   (`IsForm`), the page that they say (`said_by`), and the page of any bytes, where they are one (`page_of`). `PageFile`: the file of
//!   pages (`page_count`, `file_page`).
//! - `Found`, `Child`, `Split`, `Content`: where a key is, which child has it, where a page is split, what a page's contents are.
//! - `Tests`: the form as a test over numbers, of which `FormLemmas` shows that it decides.
//!
//! `im_page` has the code over such bytes. What speaks of pages as data, the log's structure changes and the laws of the tree, stands on
//! this crate alone, and is proved beside that code.
#![tactic(auto)]
