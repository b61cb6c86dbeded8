//! Loaded files, and halves of them.

ghost use Rattle.im_load.specs.Standing.{LoadsStand};

/// A loaded store stands for the effect that puts each of its entries, and a half of one for none, and is no store.
pub fn loads_stand()
    ensures { LoadsStand }
{}
