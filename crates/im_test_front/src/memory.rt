//! How much memory the process has.

use im_base_types::Fault;
use std::fs;

/// How many pages of memory the process has mapped, by what Linux says of it. Refused `Device` where it says nothing.
pub fn mapped(rt: &HostRuntime) -> Result<u64, Fault> {
    let Ok(text) = fs::read_to_string(rt, "/proc/self/statm") else {
        return Err(Fault::Device);
    };
    let Some(word) = text.split_whitespace().next() else {
        return Err(Fault::Device);
    };
    match word.parse::<u64>() {
        Ok(pages) => Ok(pages),
        Err(_) => Err(Fault::Device),
    }
}
