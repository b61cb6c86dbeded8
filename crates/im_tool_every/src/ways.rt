//! Where a life is stopped, and in which ways.

ghost use Rattle.std.specs.Prelude.{◌≡◌, IfOk};
ghost use Rattle.im_tool_every.specs.Stopped.{ways_of, IsStopAt};
ghost use Rattle.im_tool_every.specs.Stopped as stopped;

use im_base_model_disk::{Fill, Length, Stop};
use std::alloc::{AllocError, Global};

/// No call has this number, so that a stop within it comes at the end.
pub(crate) const END: u64 = 0;

/// Where a life is stopped, and an opening.
#[derive(Clone, Copy, Debug, PartialEq, Eq)]
pub enum Stops {
    /// Within each device call, in both lengths, with the fills 00, 01 and FF.
    EachCall,
    /// And at the end; in each place also with a fill that leaves single bytes as written.
    Everywhere,
}

impl Stops {
    /// The ways in which each place is stopped.
    pub(crate) fn ways(self) -> &'static [Way]
        ensures { result.now ≡ ways_of self }
    {
        match self {
            Stops::EachCall => &WAYS[..6],
            Stops::Everywhere => &WAYS,
        }
    }
}

/// How long each file is after a stop, and what stands at the places that are not as synced.
#[derive(Clone, Copy, Debug, PartialEq, Eq)]
pub(crate) struct Way {
    pub(crate) length: Length,
    /// This byte everywhere.
    pub(crate) fill: u8,
    /// But single bytes are as written.
    pub(crate) keeps_single: bool,
}

// Both lengths, and the fills 00, 01 and FF; then in both lengths 00 with single bytes between that are as written.
static WAYS: [Way; 8] = [
    Way {
        length: Length::Long,
        fill: 0x00,
        keeps_single: false,
    },
    Way {
        length: Length::Long,
        fill: 0x01,
        keeps_single: false,
    },
    Way {
        length: Length::Long,
        fill: 0xFF,
        keeps_single: false,
    },
    Way {
        length: Length::Short,
        fill: 0x00,
        keeps_single: false,
    },
    Way {
        length: Length::Short,
        fill: 0x01,
        keeps_single: false,
    },
    Way {
        length: Length::Short,
        fill: 0xFF,
        keeps_single: false,
    },
    Way {
        length: Length::Long,
        fill: 0x00,
        keeps_single: true,
    },
    Way {
        length: Length::Short,
        fill: 0x00,
        keeps_single: true,
    },
];

/// A stop of this way within the device call of this number, with its fill everywhere.
pub(crate) fn stop_at(alloc: Global, call: u64, way: Way) -> Result<Stop, AllocError>
    ensures { IfOk result (λ stop. IsStopAt call way stop) }
{
    let mut pattern = Vec::new(alloc);
    pattern.push(way.fill)?;
    Ok(Stop {
        call,
        length: way.length,
        fill: Fill::Bytes(pattern),
    })
}

/// The same, but all is left as written.
pub(crate) fn written_at(call: u64, way: Way) -> Stop
    ensures { result ≡ stopped.written_at call way }
{
    Stop {
        call,
        length: way.length,
        fill: Fill::Written,
    }
}
