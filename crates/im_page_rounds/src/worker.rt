//! What a worker of a round has.
ghost use Rattle.std.specs.Prelude.{◌≡◌, ◌+◌, IfErr, IfOk, OnOk, vec_len};
ghost use Rattle.im_base_types.specs.declared.fault.Fault.TheVariants.{Memory};

use crate::round_page::RoundPage;
use im_base_types::Fault;
use im_page::Page;
use std::alloc::Global;

/// A worker of a round: room for its pages, in their order, a page that it works with, and what came of its part: how many records it
/// applied.
#[derive(Drop)]
pub struct Worker {
    pub pages: Vec<RoundPage>,
    pub spare: Box<Page>,
    pub applied: Result<u64, Fault>,
}

fn any_page(alloc: Global) -> Result<Box<Page>, Fault>
    ensures refused { IfErr result (λ e. e ≡ Memory) }
{
    Box::new(alloc, Page::initial(0)).map_err(|_| Fault::Memory)
}

fn push_page(alloc: Global, pages: &mut Vec<RoundPage>) -> Result<(), Fault>
    ensures length { OnOk result (vec_len pages.new ≡ vec_len pages.old + 1) }
    ensures refused { IfErr result (λ e. e ≡ Memory) }
{
    let page = any_page(alloc)?;
    pages
        .push(RoundPage {
            page,
            changed: false,
        })
        .map_err(|_| Fault::Memory)
}

impl Worker {
    /// A worker with room for so many pages. Refused `Memory`.
    pub fn new(alloc: Global, room: usize) -> Result<Worker, Fault>
        ensures room { IfOk result (λ w. vec_len w.pages ≡ room) }
        ensures refused { IfErr result (λ e. e ≡ Memory) }
    {
        let spare = any_page(alloc)?;
        let mut pages = Vec::new(alloc);
        for _made in 0..room {
            push_page(alloc, &mut pages)?;
        }
        Ok(Worker {
            pages,
            spare,
            applied: Ok(0),
        })
    }
}
