//! An opening with its answer.

ghost use Rattle.std.specs.Prelude.{◌≡◌};
ghost use Rattle.im_base_types.specs.Faults.{number_of};

use im_base_types::Fault;

/// What an opening of a store asks, with what was answered: one place in memory, in the order that C gives to these fields.
#[repr(C)]
#[derive(Drop)]
pub struct Opening {
    /// The descriptor to ask.
    pub ask: u32,
    /// The descriptor to be answered.
    pub answer: u32,
    /// 1 where the files are only read.
    pub read_only: u32,
    /// 1 where a Commit is to wait for a Force.
    pub group: u32,
    /// How many frames.
    pub frames: u32,
    /// What was answered: the number of a refusal, 0 where the store is open.
    pub fault: u32,
    /// How many frames more.
    pub more: u64,
    /// How many pages at most.
    pub max_pages: u64,
    /// How many bytes of log the opening after this one may have to redo; the greatest number asks the usual bound.
    pub redo_bytes: u64,
    /// How many bytes of log it may have to read; the greatest number asks the usual bound.
    pub log_bytes: u64,
}

impl Opening {
    /// Answers a refusal by its number.
    pub fn refuse(&mut self, fault: Fault)
        ensures told { self.new ≡ record self.old { fault = number_of fault } }
    {
        self.fault = u32::from(fault.number());
    }
}
