//! Which program this is.

/// The release, and whether it is proved; the format of the files that it keeps; the kit by which it is proved, whose letter may be another. The toolchain
/// leaves a program only where all of it is proved, and what builds one without proofs, callers/unproved.py, has `unproved` here.
/// No commit is named: its own number is not known to what is committed.
pub const VERSION: &str = "0.1.0 proved\nformat 2\nkit rattle-kit-13 logic dac8208d650f15bf";
