//! How the steps of a part were answered.

use anyhow::Result;
use im_base_steps::Reply;
use im_base_types::Fault;

/// How many steps had the reply that they should have, and how many another one, by what it was.
#[derive(Clone, Copy, Default)]
pub struct Tally {
    pub right: u64,
    /// Refused for want of memory, or as the engine had failed for it.
    pub memory: u64,
    /// Refused as page numbers, levels, or the log's places were used up.
    pub used_up: u64,
    /// Any other.
    pub other: u64,
}

impl Tally {
    /// A step had this reply, which is the one that it should have, or another.
    pub fn add(&mut self, reply: &Reply, is_right: bool) {
        if is_right {
            self.right = self.right.wrapping_add(1);
            return;
        }
        match reply {
            Reply::Refused(Fault::Memory | Fault::Failed) => {
                self.memory = self.memory.wrapping_add(1);
            }
            Reply::Refused(Fault::Capacity | Fault::LogFull | Fault::PagesFull) => {
                self.used_up = self.used_up.wrapping_add(1);
            }
            _ => self.other = self.other.wrapping_add(1),
        }
    }
}

/// Its line.
pub fn show_tally(rt: &HostRuntime, tally: Tally) -> Result<()> {
    println!(rt;
        "  steps: right {}, memory {}, used up {}, other {}",
        tally.right, tally.memory, tally.used_up, tally.other
    )?;
    Ok(())
}
