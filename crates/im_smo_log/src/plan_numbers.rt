//! The numbers of the pages of a plan.

ghost use Rattle.std.specs.Prelude.{◌≡◌, [], ◌∷◌, ◌++◌, IfErr, IfOk, OnOk};
ghost use Rattle.im_base_types.specs.declared.fault.Fault.TheVariants.{Memory};
ghost use Rattle.im_smo_log.specs.ChangePages.{numbers_of};

use im_base_types::{Fault, PageNo};
use im_smo_pages::Images;
use std::alloc::Global;

// An empty list with room for so many page numbers.
fn list_for(alloc: Global, len: usize) -> Result<Vec<PageNo>, Fault>
    ensures none { IfOk result (λ list. list.items ≡ []) }
    ensures memory { IfErr result (λ e. e ≡ Memory) }
{
    Vec::with_capacity(alloc, len).map_err(|_| Fault::Memory)
}

// Adds a page number to a list.
fn add_number(list: &mut Vec<PageNo>, number: PageNo) -> Result<(), Fault>
    ensures added { OnOk result (list.new.items ≡ list.old.items ++ number ∷ []) }
    ensures memory { IfErr result (λ e. e ≡ Memory) }
{
    list.push(number).map_err(|_| Fault::Memory)?;
    Ok(())
}

/// The numbers of the pages of a plan, in the order in which they are logged: a search beside its change is told them. They can be taken in
/// front of any record. Refused `Memory` where it is wanted for the list.
pub fn page_numbers(alloc: Global, images: &Images) -> Result<Vec<PageNo>, Fault>
    ensures numbers { IfOk result (λ list. list.items ≡ numbers_of images.now) }
    ensures memory { IfErr result (λ e. e ≡ Memory) }
{
    let len = images.len();
    let mut list = list_for(alloc, len)?;
    for i in 0..len {
        add_number(&mut list, images.number(i))?;
    }
    Ok(list)
}
