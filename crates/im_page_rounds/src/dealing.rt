//! The pages of a round are dealt to its workers.
ghost use Rattle.std.specs.Prelude.{◌≡◌, ◌≤◌, IfOk, map};
ghost use Rattle.im_page_rounds.specs.Dealing.{dealt, hands};

use im_base_types::PageNo;
use std::alloc::{AllocError, Global};

/// Each worker's pages of a round, whose pages these are in rising number: page i, from 0, is dealt to worker i mod `workers`. Refused
/// where there is no memory.
pub fn deal(alloc: Global, pages: &[PageNo], workers: usize) -> Result<Vec<Vec<PageNo>>, AllocError>
    requires { 1 ≤ workers }
    ensures { IfOk result (λ v. map (λ h. h.items) v.items ≡ hands workers pages.now) }
{
    let mut all = Vec::with_capacity(alloc, workers)?;
    for worker in 0..workers {
        all.push(hand_of(alloc, pages, workers, worker)?)?;
    }
    Ok(all)
}

// The pages of one worker.
fn hand_of(
    alloc: Global,
    pages: &[PageNo],
    workers: usize,
    worker: usize,
) -> Result<Vec<PageNo>, AllocError>
    requires { 1 ≤ workers }
    ensures { IfOk result (λ v. v.items ≡ dealt workers worker pages.now) }
{
    let mut hand = Vec::new(alloc);
    for i in 0..pages.len() {
        if i % workers == worker {
            hand.push(pages[i])?;
        }
    }
    Ok(hand)
}
