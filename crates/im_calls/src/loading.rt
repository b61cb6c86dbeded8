//! A load of rising entries into files that a caller holds, over any disk.

ghost use Rattle.std.specs.Prelude.{◌≡◌, false};
ghost use Rattle.im_calls.specs.Calls.{IsAnswered, asked_bytes};
ghost use Rattle.im_calls.specs.Loads.{IsLoadBegun, IsLoadEnded, IsPut};
ghost use Rattle.im_calls.specs.Sessions.{TellsEnd};

use crate::call::Call;
use crate::telling::{refuse, tell};
use im_base_disk::Disk;
use im_base_types::Fault;
use im_load::Loader;
use std::alloc::Global;

// The numbers of what is told.
const INSERTED: u32 = 6;

const DUPLICATE: u32 = 7;

const DONE: u32 = 14;

/// A load that goes on, and its files.
#[derive(Drop)]
pub struct Loading<D: Disk> {
    pub(crate) loader: Loader,
    pub(crate) disk: D,
}

impl<D: Disk + Drop> Loading<D> {
    /// Begins a load into files without bytes, and answers that it is done. Refused `NotAStore` where one has a byte, `Memory`, `Device`.
    pub fn begin(alloc: Global, disk: D, call: &mut Call) -> Option<Loading<D>>
        requires working { D.failed disk ≡ false }
        ensures begun { IsLoadBegun D.Disk disk call.new result }
        ensures question { IsAnswered call.old call.new }
    {
        let mut disk = disk;
        let begun = match Loader::begin(alloc, &mut disk) {
            Ok(begun) => begun,
            Err(fault) => {
                refuse(call, fault);
                return None;
            }
        };
        let Some(loader) = begun else {
            refuse(call, Fault::NotAStore);
            return None;
        };
        tell(call, DONE, 0);
        Some(Loading { loader, disk })
    }

    /// Takes the entry of a call, its key and its number, and answers Inserted; or Duplicate, with nothing changed, where its key is not above all that were
    /// taken. Where it is refused, as `Loader::put` is, the load is over.
    pub fn put(self, call: &mut Call) -> Option<Loading<D>>
        requires working { D.failed self.disk ≡ false }
        ensures put { IsPut D.Disk call.old call.new self result }
        ensures question { IsAnswered call.old call.new }
    {
        let Loading { loader, disk } = self;
        let mut loader = loader;
        let mut disk = disk;
        let taken = match loader.put(&mut disk, asked_key(call), call.number) {
            Ok(taken) => taken,
            Err(fault) => {
                refuse(call, fault);
                return None;
            }
        };
        if taken {
            tell(call, INSERTED, 0);
            return Some(Loading { loader, disk });
        }
        tell(call, DUPLICATE, 0);
        Some(Loading { loader, disk })
    }

    /// Ends the load, answers that it is done, and hands its files back. Refused `Device`.
    pub fn end(self, call: &mut Call) -> D
        requires working { D.failed self.disk ≡ false }
        ensures ended { IsLoadEnded D.Disk call.new self result }
        ensures question { IsAnswered call.old call.new }
    {
        let Loading { loader, disk } = self;
        let mut disk = disk;
        let ended = loader.finish(&mut disk);
        tell_end(call, ended);
        disk
    }
}

// Answers how an end went.
fn tell_end(call: &mut Call, ended: Result<(), Fault>)
    ensures told { TellsEnd call.new ended }
    ensures question { IsAnswered call.old call.new }
{
    match ended {
        Ok(()) => tell(call, DONE, 0),
        Err(fault) => refuse(call, fault),
    }
}

// The key that is asked for.
fn asked_key(call: &Call) -> &[u8]
    ensures { result.now ≡ asked_bytes call.now.key_len call.now.key }
{
    let count = (call.key_len as usize).min(256);
    &call.key[..count]
}
