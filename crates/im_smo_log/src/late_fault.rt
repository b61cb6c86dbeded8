//! Refusals after the first record of a structure change.

ghost use Rattle.std.specs.Prelude.{◌≡◌, ◌≢◌};
ghost use Rattle.im_base_types.specs.declared.fault.Fault.TheVariants.{Failed, Memory};

use im_base_types::Fault;

/// What a refusal is answered as after the first record of a structure change: for want of memory there is no way back then, so
/// that it is `Failed`.
pub fn late(fault: Fault) -> Fault
    ensures memory { fault ≡ Memory → result ≡ Failed }
    ensures others { fault ≢ Memory → result ≡ fault }
{
    match fault {
        Fault::Memory => Fault::Failed,
        _ => fault,
    }
}
