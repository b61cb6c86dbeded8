//! Which calls of a model disk fail, and in which of them it stops.
ghost use Rattle.std.specs.Prelude.{◌≡◌, ◌+◌, ◌^◌, ◌≤◌, false};
ghost use Rattle.im_base_model_disk.specs.Plan.{is_told, stops_at, call_fails_at, read_fails_at, armed_with_nothing};

use crate::Stop;

const MAX_CALLS: u64 = 1 << 62;

/// What a model disk was told to do in the calls to come.
#[derive(Debug, Drop)]
pub struct Armed {
    pub(crate) stop: Option<Stop>,
    pub(crate) failing_call: Option<u64>,
    pub(crate) failing_read: Option<u64>,
}

impl Armed {
    fn stops_at(&self, call: u64) -> bool
        ensures { result ≡ stops_at self.now call }
    {
        match &self.stop {
            Some(stop) => stop.call == call,
            None => false,
        }
    }
}

/// The calls of a life so far, and what was armed.
#[derive(Drop)]
pub struct Plan {
    pub(crate) armed: Armed,
    pub(crate) calls: u64,
    pub(crate) reads: u64,
    pub(crate) has_stopped: bool,
}

impl Plan {
    pub(crate) fn new() -> Plan
        ensures calls { result.calls ≡ 0 }
        ensures reads { result.reads ≡ 0 }
        ensures stopped { result.has_stopped ≡ false }
        ensures armed { result.armed ≡ armed_with_nothing }
    {
        Plan {
            armed: Armed {
                stop: None,
                failing_call: None,
                failing_read: None,
            },
            calls: 0,
            reads: 0,
            has_stopped: false,
        }
    }

    /// Counts a device call, and says whether it fails.
    pub(crate) fn call_fails(&mut self) -> bool
        requires { self.old.calls ≤ 2 ^ 62 }
        ensures fails { result ≡ call_fails_at self.old.armed (self.old.calls + 1) }
        ensures calls { self.new.calls ≡ self.old.calls + 1 }
        ensures stopped { self.new.has_stopped ≡ stops_at self.old.armed (self.old.calls + 1) }
        ensures reads { self.new.reads ≡ self.old.reads }
        ensures armed { self.new.armed ≡ self.old.armed }
    {
        self.calls += 1;
        self.has_stopped = self.armed.stops_at(self.calls);
        self.has_stopped || is_told(self.armed.failing_call, self.calls) || self.calls > MAX_CALLS
    }

    /// Counts a read or a length call, and says whether it fails.
    pub(crate) fn read_fails(&mut self) -> bool
        requires { self.old.reads ≤ 2 ^ 62 }
        ensures fails { result ≡ read_fails_at self.old.armed (self.old.reads + 1) }
        ensures reads { self.new.reads ≡ self.old.reads + 1 }
        ensures calls { self.new.calls ≡ self.old.calls }
        ensures stopped { self.new.has_stopped ≡ self.old.has_stopped }
        ensures armed { self.new.armed ≡ self.old.armed }
    {
        self.reads += 1;
        is_told(self.armed.failing_read, self.reads) || self.reads > MAX_CALLS
    }
}

fn is_told(told: Option<u64>, number: u64) -> bool
    ensures { result ≡ is_told told number }
{
    match told {
        Some(failing) => failing == number,
        None => false,
    }
}
