//! Refusals for want of memory.

ghost use Rattle.std.specs.Prelude.{◌≡◌, ◌≢◌, true, false};
ghost use Rattle.im_base_types.specs.declared.fault.Fault.TheVariants.{Memory};

use im_base_types::Fault;

/// Whether a refusal came for want of memory.
pub(crate) fn wants_memory(fault: Fault) -> bool
    ensures wants { result ≡ true → fault ≡ Memory }
    ensures other { result ≡ false → fault ≢ Memory }
{
    match fault {
        Fault::Memory => true,
        _ => false,
    }
}
