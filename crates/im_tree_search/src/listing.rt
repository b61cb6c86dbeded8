//! All entries.

ghost use Rattle.std.specs.Prelude.{◌≡◌, ◌++◌, IfErr, OnOk};
ghost use Rattle.im_base_types.specs.declared.fault.Fault.TheVariants.{Memory};
ghost use Rattle.im_page_writer.specs.PageWriter.{IsReadyWriter};
ghost use Rattle.im_page_writer.specs.Outcome.{fault_of, AllPages, IsSound, Lists};
ghost use Rattle.im_theory_tree.specs.Levels.{walk};
ghost use Rattle.im_tree_search.specs.Levels.{bodies_of};
ghost use Rattle.im_tree_search.specs.Found.{HasTree};

use crate::descent::leaf_for;
use crate::leaf_chain::page_count;
use crate::levels::tree_page;
use im_base_disk::Disk;
use im_base_types::{Fault, Key, Rid};
use im_page::Page;
use im_page_writer::PageWriter;
use std::alloc::Global;

// Adds the entries of a page to a list.
fn add_entries(list: &mut Vec<(Key, Rid)>, page: &Page) -> Result<(), Fault>
    ensures added { OnOk result (list.new.items ≡ list.old.items ++ page.now.body.entries) }
    ensures memory { IfErr result (λ e. e ≡ Memory) }
{
    for i in 0..page.len() {
        let key = Key::new(page.key(i))?;
        list.push((key, page.value(i))).map_err(|_| Fault::Memory)?;
    }
    Ok(())
}

/// Copies of all entries of the index, in rising key order, along the leaf chain.
///
/// Refused `Memory` where there is no room for the list too; otherwise as `next_entry` is. After `NotAStore` and `Memory` the writer
/// goes on.
#[tactic(auto, using(im_page_writer::proofs::Outcomes::then, im_page_writer::proofs::Outcomes::refused))]
pub fn entries<D: Disk>(
    alloc: Global,
    writer: &mut PageWriter,
    disk: &mut D,
) -> Result<Vec<(Key, Rid)>, Fault>
    requires ready { IsReadyWriter D.Disk writer.old disk.old }
    ensures outcome { Lists D.Disk writer.old disk.old writer.new disk.new (fault_of result) }
    ensures kept { (pages : AllPages) → HasTree D.Disk pages writer.old disk.old → IsSound result (λ list. list.items ≡ walk (bodies_of pages)) }
{
    let first = leaf_for(writer, disk, &[])?;
    let mut left = page_count(writer, disk)?;
    let mut number = first.number;
    let mut list = Vec::new(alloc);
    while number != 0 {
        if left == 0 {
            return Err(Fault::NotAStore);
        }
        left -= 1;
        let frame = tree_page(writer, disk, number, 0)?;
        let leaf = writer.page(frame);
        add_entries(&mut list, leaf)?;
        number = leaf.next();
    }
    Ok(list)
}
