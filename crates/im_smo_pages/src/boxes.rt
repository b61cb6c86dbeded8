//! Boxes for the pages that come into a structure change.

ghost use Rattle.std.specs.Prelude.{◌≡◌, IfErr};
ghost use Rattle.im_base_types.specs.declared.fault.Fault.TheVariants.{Memory};

use im_base_types::Fault;
use im_page::Page;
use std::alloc::Global;

/// A page to be made. Refused `Memory` alone.
pub fn blank(alloc: Global) -> Result<Box<Page>, Fault>
    ensures { IfErr result (λ e. e ≡ Memory) }
{
    Box::new(alloc, Page::initial(0)).map_err(|_| Fault::Memory)
}
