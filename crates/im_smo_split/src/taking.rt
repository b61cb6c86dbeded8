//! The pages that a split takes.

ghost use Rattle.std.specs.Prelude.{◌≡◌, ◌<◌, ◌+◌, ◌-◌, ◌^◌, [], ◌∷◌, ◌++◌, false, IfErr, IfOk, OnOk, length};
ghost use Rattle.im_base_types.specs.declared.fault.Fault.TheVariants.{Capacity, Memory};
ghost use Rattle.im_page_writer.specs.PageWriter.{IsReadyWriter};
ghost use Rattle.im_page_writer.specs.Outcome.{fault_of, AllPages, AreLoaded, IsSound, Outcome};
ghost use Rattle.im_smo_pages.specs.Kept.{mild_to_take, HasImages};
ghost use Rattle.im_smo_pages.specs.Seen.{seen};
ghost use Rattle.im_smo_split.specs.Pages.{Taken};

use im_base_disk::Disk;
use im_base_types::{Fault, PageNo};
use im_page_writer::PageWriter;
use im_smo_pages::{Images, allocate};
use std::alloc::Global;

// Notes a number.
fn push_number(numbers: &mut Vec<PageNo>, number: PageNo) -> Result<(), Fault>
    ensures new { OnOk result (numbers.new.items ≡ numbers.old.items ++ number ∷ []) }
    ensures refused { IfErr result (λ e. e ≡ Memory) }
{
    numbers.push(number).map_err(|_| Fault::Memory)?;
    Ok(())
}

/// Takes so many pages, and answers their numbers in the order in which they were taken.
///
/// Refused as `allocate` is, and `Memory` also where there is none for the numbers. After a refusal the images are of no use.
pub(crate) fn take_pages<D: Disk>(
    alloc: Global,
    images: &mut Images,
    writer: &mut PageWriter,
    disk: &mut D,
    count: u32,
) -> Result<Vec<PageNo>, Fault>
    requires ready { IsReadyWriter D.Disk writer.old disk.old }
    requires working { writer.old.failed ≡ false }
    ensures outcome { Outcome D.Disk AreLoaded mild_to_take writer.old disk.old writer.new disk.new (fault_of result) }
    ensures kept { (store : AllPages) → HasImages D.Disk store images.old [] writer.old disk.old → IsSound result (λ numbers. Taken store images.old numbers.items images.new) }
    ensures used_up { (store : AllPages) → HasImages D.Disk store images.old [] writer.old disk.old
        → IfErr result (λ e. e ≡ Capacity → 2 ^ 32 - 1 + (seen store images.old 0).prev < (seen store images.old 0).leftmost + count) }
    ensures count { IfOk result (λ numbers. length numbers.items ≡ count) }
{
    let mut numbers: Vec<PageNo> = Vec::new(alloc);
    let mut taken = 0;
    while taken < count {
        let number = allocate(alloc, images, writer, disk)?;
        push_number(&mut numbers, number)?;
        taken += 1;
    }
    Ok(numbers)
}
