//! A life of a store in a script.

use im_base_model_disk::Stop;
use im_base_steps::Step;
use im_base_types::{PageNo, TxnId};

/// A line within a life of a store.
#[derive(Drop)]
pub enum StoreLine {
    /// Makes one step.
    Step(Step),
    /// Prints the device calls so far.
    Calls,
    /// Prints what a page is for.
    Page(PageNo),
    /// Prints what redo did in the life's opening.
    Redo,
    /// Prints where the log ends.
    Log,
    /// Prints how many changes of a transaction stand.
    Changes(TxnId),
}

/// How the store of a life is opened.
#[derive(Clone, Copy, Debug, PartialEq, Eq)]
pub struct LifeOptions {
    /// How many pages are held at most; none for as many as the default has.
    pub frames: Option<u64>,
    /// How many pages the store has at most, as far as inserts go; none for as many as the default has.
    pub max_pages: Option<u64>,
    /// The number of the device call that fails, counted from 1; none where none does.
    pub failing_call: Option<u64>,
    /// The number of the read or length call that fails, counted from 1; none where none does.
    pub failing_read: Option<u64>,
    /// Whether a structure change is made page by page, each page by a step of its own.
    pub stepped: bool,
    /// Whether a Commit waits for a force.
    pub group: bool,
    /// Whether the last leaf keeps nearly all of its room where it is split.
    pub dense: bool,
    /// How many workers share redo; none for as many as the default has.
    pub workers: Option<u64>,
}

/// A life of a store: it is opened, and then its lines are run in turn.
#[derive(Drop)]
pub struct StoreLife {
    pub options: LifeOptions,
    /// The lines between the first and the stop.
    pub lines: Vec<StoreLine>,
    /// The stop that ends it; none where the whole life is made and all that was written is left.
    pub stop: Option<Stop>,
}
