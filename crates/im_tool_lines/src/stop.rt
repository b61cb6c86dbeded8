//! The stop of a life.

ghost use Rattle.std.specs.Prelude.{◌≡◌, ◌↔◌, true, IfOk, OnOk};
ghost use Rattle.im_base_disk.specs.Runs.{IsSynced, Reads};
ghost use Rattle.im_tool_lines.specs.Stops.{IsSameStop, IsArmedAll, IsArmedWith, IsCallArmed, IsReadArmed, HasCome, IsOpenedOr};

use crate::Opening;
use crate::store_life::StoreLife;
use im_base_disk::Disk;
use im_base_model_disk::{Fill, ModelDisk, Stop};
use im_base_types::Fault;
use std::alloc::{AllocError, Global};

/// Sets the life's stop; without one nothing changes.
pub(crate) fn arm(
    alloc: Global,
    disk: &mut ModelDisk,
    stop: &Option<Stop>,
) -> Result<(), AllocError>
    ensures armed { OnOk result (IsArmedWith stop.now disk.old disk.new) }
    ensures reads { Reads ⟦<ModelDisk as Disk>⟧ disk.old disk.new }
    ensures synced { IsSynced ⟦<ModelDisk as Disk>⟧ disk.old → IsSynced ⟦<ModelDisk as Disk>⟧ disk.new }
    ensures failed { ⟦<ModelDisk as Disk>⟧.failed disk.new ≡ ⟦<ModelDisk as Disk>⟧.failed disk.old }
{
    match stop {
        Some(stop) => {
            let stop = copy_of(alloc, stop)?;
            disk.arm(stop);
            Ok(())
        }
        None => Ok(()),
    }
}

/// Sets the stop of a life of a store, and the device call and the read that fail in it.
pub fn arm_life(alloc: Global, disk: &mut ModelDisk, life: &StoreLife) -> Result<(), AllocError>
    ensures armed { OnOk result (IsArmedAll life.now.stop life.now.options.failing_call life.now.options.failing_read disk.old disk.new) }
    ensures reads { Reads ⟦<ModelDisk as Disk>⟧ disk.old disk.new }
    ensures synced { IsSynced ⟦<ModelDisk as Disk>⟧ disk.old → IsSynced ⟦<ModelDisk as Disk>⟧ disk.new }
    ensures failed { ⟦<ModelDisk as Disk>⟧.failed disk.new ≡ ⟦<ModelDisk as Disk>⟧.failed disk.old }
{
    arm(alloc, disk, &life.stop)?;
    arm_call(disk, life.options.failing_call);
    arm_read(disk, life.options.failing_read);
    Ok(())
}

fn arm_call(disk: &mut ModelDisk, call: Option<u64>)
    ensures armed { IsCallArmed call disk.old disk.new }
    ensures reads { Reads ⟦<ModelDisk as Disk>⟧ disk.old disk.new }
    ensures synced { IsSynced ⟦<ModelDisk as Disk>⟧ disk.old → IsSynced ⟦<ModelDisk as Disk>⟧ disk.new }
    ensures failed { ⟦<ModelDisk as Disk>⟧.failed disk.new ≡ ⟦<ModelDisk as Disk>⟧.failed disk.old }
{
    match call {
        Some(call) => disk.fail_call(call),
        None => {}
    }
}

fn arm_read(disk: &mut ModelDisk, read: Option<u64>)
    ensures armed { IsReadArmed read disk.old disk.new }
    ensures reads { Reads ⟦<ModelDisk as Disk>⟧ disk.old disk.new }
    ensures synced { IsSynced ⟦<ModelDisk as Disk>⟧ disk.old → IsSynced ⟦<ModelDisk as Disk>⟧ disk.new }
    ensures failed { ⟦<ModelDisk as Disk>⟧.failed disk.new ≡ ⟦<ModelDisk as Disk>⟧.failed disk.old }
{
    match read {
        Some(read) => disk.fail_read(read),
        None => {}
    }
}

// A stop like this one.
fn copy_of(alloc: Global, stop: &Stop) -> Result<Stop, AllocError>
    ensures { IfOk result (λ copy. IsSameStop stop.now copy) }
{
    let fill = match &stop.fill {
        Fill::Written => Fill::Written,
        Fill::Bytes(bytes) => Fill::Bytes(Vec::from_slice(alloc, bytes)?),
    };
    Ok(Stop {
        call: stop.call,
        length: stop.length,
        fill,
    })
}

/// Whether the life's stop fell into a device call.
pub fn has_come(stop: &Option<Stop>, disk: &ModelDisk) -> bool
    ensures { result ≡ true ↔ HasCome stop.now disk.now }
{
    match stop {
        Some(stop) => stop.call != 0 && disk.stopped(),
        None => false,
    }
}

/// What an opening answers that did not succeed: that the stop fell into it, where it did, or the fault.
pub fn refused_opening(disk: &ModelDisk, stop: &Option<Stop>, fault: Fault) -> Opening
    ensures { IsOpenedOr stop.now disk.now result fault }
{
    if has_come(stop, disk) {
        Opening::Stopped
    } else {
        Opening::Refused(fault)
    }
}
