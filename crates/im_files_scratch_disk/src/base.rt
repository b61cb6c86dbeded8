//! The disk below, of which nothing is changed.
ghost use Rattle.std.specs.Prelude.{◌≡◌, false, IfErr};
ghost use Rattle.std.specs.Option.{ForSome};
ghost use Rattle.im_base_types.specs.declared.fault.Fault.TheVariants.{Device};
ghost use Rattle.im_files_scratch_disk.specs.OnlyRead.{IsOnlyRead};

use im_base_disk::Disk;
use im_base_types::{Fault, FileId};

/// A disk that is only read, if there is one.
#[derive(Drop)]
pub(crate) struct Base<D: Disk + Drop> {
    pub(crate) disk: Option<D>,
    // The last call of it failed: there is no other.
    pub(crate) is_lost: bool,
    ghost known: { ForSome disk (λ d. D.failed d ≡ is_lost) },
}

impl<D: Disk + Drop> Base<D> {
    pub(crate) fn new(disk: Option<D>) -> Base<D>
        requires { ForSome disk (λ d. D.failed d ≡ false) }
        ensures { result.disk ≡ disk }
    {
        Base {
            disk,
            is_lost: false,
        }
    }

    pub(crate) fn disk(&self) -> &Option<D>
        ensures { result.now ≡ self.now.disk }
    {
        &self.disk
    }

    pub(crate) fn into_disk(self) -> Option<D>
        ensures { result ≡ self.disk }
    {
        let Base {
            disk,
            is_lost: _is_lost,
        } = self;
        disk
    }

    /// The length of a file, which is 0 where there is no disk.
    ///
    /// Refused `Device` where a call failed, this one or an earlier one.
    pub(crate) fn length(&mut self, file: FileId) -> Result<u64, Fault>
        ensures only { IsOnlyRead D.Disk self.old.disk self.new.disk }
        ensures device { IfErr result (λ e. e ≡ Device) }
    {
        let Base { disk, is_lost } = self;
        let Some(disk) = disk else {
            return Ok(0);
        };
        if *is_lost {
            return Err(Fault::Device);
        }
        *is_lost = true;
        let length = disk.len(file)?;
        *is_lost = false;
        Ok(length)
    }

    /// Reads what a file has from a place on; the room that it does not fill is left.
    ///
    /// Refused `Device` where a call failed, this one or an earlier one.
    pub(crate) fn read(&mut self, file: FileId, at: u64, room: &mut [u8]) -> Result<(), Fault>
        ensures only { IsOnlyRead D.Disk self.old.disk self.new.disk }
        ensures device { IfErr result (λ e. e ≡ Device) }
    {
        let Base { disk, is_lost } = self;
        let Some(disk) = disk else {
            return Ok(());
        };
        if *is_lost {
            return Err(Fault::Device);
        }
        *is_lost = true;
        let length = disk.len(file)?;
        if length > at {
            let size = room
                .len()
                .min(usize::try_from(length - at).unwrap_or(usize::MAX));
            disk.read(file, at, &mut room[..size])?;
        }
        *is_lost = false;
        Ok(())
    }
}
