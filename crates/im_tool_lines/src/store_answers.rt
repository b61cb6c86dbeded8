//! What a life of a store answers.

use crate::life_answers::Opening;
use im_base_steps::Reply;
use im_base_types::{Fault, PageNo, RedoReport};
use im_page::Header;

/// What a line of a life of a store answers.
#[derive(Drop)]
pub enum StoreReply {
    /// The step's reply.
    Step(Reply),
    /// The device calls so far.
    Calls(u64),
    /// What a page is for.
    Page(PageNo, Header),
    /// What redo did in the life's opening: where it began, and how many records it applied. Without any record it began at 0.
    Redo(RedoReport),
    /// Where the gate stands in the file of the current log, in bytes: what is durable of it ends there.
    Log(u64),
    /// How many changes of a transaction stand.
    Changes(u64),
    /// What a page is for, or how many changes stand, can't be told.
    Refused(Fault),
    /// The stop fell into it. The life's other lines answer nothing.
    Stopped,
}

/// What a life of a store answers.
#[derive(Drop)]
pub struct StoreAnswers {
    /// Its opening.
    pub opening: Opening,
    /// One reply for each of its lines, as far as it came.
    pub replies: Vec<StoreReply>,
}
