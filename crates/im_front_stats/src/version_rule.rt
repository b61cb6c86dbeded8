//! The rule that the passes of the cell keep, by the version: which load and which store of a word is what of a step.

use atomic_table::{Play, Seat, Split};
use crossbeam_utils::atomic::seq_cell::Doing;
use crossbeam_utils::rule::{Outcome, Protocol};

/// What a pass knows: whether it is the one that writes, and the counts that it wrote or read last. No value of it is
/// made.
pub struct Known {
    pub writes: bool,
    pub seen: [u64; 3],
}

/// A pass of the cell: who has it may read, or write where it is the writer's. It has no bytes.
pub type Pass = Seat<[u64; 3], Doing<[u64; 3], Known>>;

/// The rule of the cell.
pub struct Law;

impl Protocol<[u64; 3], Known> for Law {
    ghost use Rattle.im_front_stats.specs.Counts.{Kept, writer, nothing};

    ghost holds = { Kept };

    ghost first = { writer nothing };
}

// A look at the version before a step.
pub(crate) struct Look;

impl Play<[u64; 3], Doing<[u64; 3], Known>> for Look {
    ghost use Rattle.crossbeam_utils.specs.Seq.{looked};

    ghost then = { looked };
}

// A read of one word.
pub(crate) struct Peek;

impl Play<[u64; 3], Doing<[u64; 3], Known>> for Peek {
    ghost use Rattle.crossbeam_utils.specs.Seq.{peeked};

    ghost then = { peeked (λ x. x) };
}

// A second look at the version: where it is the same, the words are of one moment.
pub(crate) struct Check;

impl Play<[u64; 3], Doing<[u64; 3], Known>> for Check {
    ghost use Rattle.crossbeam_utils.specs.Seq.{checked};
    ghost use Rattle.im_front_stats.specs.Counts.{Loaded};

    ghost then = { checked (λ x. x) 3 Loaded };
}

// The version made odd by the writer.
pub(crate) struct Lock;

impl Play<[u64; 3], Doing<[u64; 3], Known>> for Lock {
    ghost use Rattle.crossbeam_utils.specs.Seq.{locked};

    ghost then = { locked (λ x. x) 3 };
}

// A store of one word.
pub(crate) struct Put;

impl Play<[u64; 3], Doing<[u64; 3], Known>> for Put {
    ghost use Rattle.crossbeam_utils.specs.Seq.{wrote};

    ghost then = { wrote };
}

// The version made even again: the step is done.
pub(crate) struct Publish;

impl Play<[u64; 3], Doing<[u64; 3], Known>> for Publish {
    ghost use Rattle.crossbeam_utils.specs.Seq.{published};
    ghost use Rattle.im_front_stats.specs.Counts.{StoresCounts};

    ghost then = { published StoresCounts };
}

// A reader's pass, cut off another: it has seen what that one has.
pub(crate) struct Cut;

impl Split<Doing<[u64; 3], Known>> for Cut {
    ghost use Rattle.crossbeam_utils.specs.Seq.{idle};
    ghost use Rattle.im_front_stats.specs.Counts.{reader};

    ghost left = { λ d. d };

    ghost right = { λ d. idle (reader d.client.seen) };
}
