//! What is looked at in a store.

use im_base_disk::Disk;
use im_base_types::Fault;
use im_bench_layers::page_kinds::Kinds;
use im_bench_layers::spans::right_among;
use im_engine::Engine;
use std::alloc::Global;

/// How many entries there are, and how many of them are as they should be.
pub fn listed<D: Disk>(alloc: Global, engine: &mut Engine<D>) -> Result<(u64, u64), Fault> {
    let entries = engine.entries(alloc)?;
    Ok((entries.len() as u64, right_among(&entries)))
}

/// What the pages below a number are for.
pub fn pages_by_kind<D: Disk>(engine: &mut Engine<D>, pages: u32) -> Result<Kinds, Fault> {
    let mut kinds = Kinds::default();
    kinds.level = engine.header(1)?.level;
    for page in 1..pages {
        kinds.add(page, engine.header(page)?.kind);
    }
    Ok(kinds)
}
