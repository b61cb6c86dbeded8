//! What a folder does that has the files of a store.

ghost use Rattle.std.specs.Prelude.{◌≡◌, ℕ, List, [], Result, false, IfOk, IfErr};
ghost use Rattle.im_base_types.specs.declared.fault.Fault as faults;
ghost use Rattle.im_base_types.specs.declared.fault.Fault.TheVariants.{Device};
ghost use Rattle.im_base_types.specs.declared.file_id.FileId as files;
ghost use Rattle.im_base_disk.specs.Disk.{Only};
ghost use Rattle.im_files_disk.specs.declared.open_error.OpenError as errors;
ghost use Rattle.im_open.specs.Folders.{Untold};

use im_base_disk::Disk;
use im_base_types::Fault;
use im_files_disk::{FileDisk, OpenError};

/// The files of a store that lie in a folder. Its ghosts say what a folder was asked, by its name, and what it answered: who knows of a folder no more than that it is
/// one has files that it opened, made, named or cut from these calls alone.
pub trait Folder: Disk + Drop {
    /// The files of the store in the folder of this name were asked for, and this was answered.
    ghost opens: { List ℕ → Result Self errors.OpenError → Type 0 };

    /// Files for a copy were asked for there, and this was answered.
    ghost makes: { List ℕ → Result Self errors.OpenError → Type 0 };

    /// For these files of a copy the names of a store were asked there, and this was answered.
    ghost names: { List ℕ → Self → Result Self errors.OpenError → Type 0 };

    /// The logs of these files were to be cut to what an opening reads, and this was answered.
    ghost cuts: { Self → Result Unit faults.Fault → Type 0 };

    /// Opens the files of the store in a folder, or makes them where there are none. What they hold is on the disk.
    fn open_in(rt: &HostRuntime, folder: &str) -> Result<Self, OpenError>
        ensures asked { opens folder.now result }
        ensures working { IfOk result (λ disk. Self.failed disk ≡ false) }
        ensures synced { IfOk result (λ disk. (file : files.FileId) → Only file (Self.seen disk) (Self.may_leave disk)) };

    /// Makes the files of a copy in a folder that is empty, or is not there. They have no byte, and no names that an opening takes.
    fn make_in(rt: &HostRuntime, folder: &str) -> Result<Self, OpenError>
        ensures asked { makes folder.now result }
        ensures working { IfOk result (λ disk. Self.failed disk ≡ false) }
        ensures empty { IfOk result (λ disk. Self.tells → (file : files.FileId) → Self.seen disk file ≡ []) };

    /// Brings the files of a copy that is whole to the disk, and gives them the names of a store.
    fn name_in(self, rt: &HostRuntime, folder: &str) -> Result<Self, OpenError>
        ensures asked { names folder.now self result };

    /// Cuts the logs of a store that has ended, as `LogCuts` of `im_files_belonging` says, and lets its files go. Refused `Device`.
    fn cut_and_end(self) -> Result<(), Fault>
        ensures asked { cuts self result }
        ensures causes { IfErr result (λ e. e ≡ Device) };
}

impl Folder for FileDisk {
    ghost opens = { λ _ _. Untold };

    ghost makes = { λ _ _. Untold };

    ghost names = { λ _ _ _. Untold };

    ghost cuts = { λ _ _. Untold };

    fn open_in(rt: &HostRuntime, folder: &str) -> Result<FileDisk, OpenError> {
        FileDisk::open(rt, folder)
    }

    fn make_in(rt: &HostRuntime, folder: &str) -> Result<FileDisk, OpenError> {
        FileDisk::create_copy(rt, folder)
    }

    fn name_in(self, rt: &HostRuntime, folder: &str) -> Result<FileDisk, OpenError> {
        self.name_copy(rt, folder)
    }

    fn cut_and_end(self) -> Result<(), Fault> {
        let mut disk = self;
        match disk.cut_logs() {
            Ok(_bytes) => Ok(()),
            Err(fault) => Err(fault),
        }
    }
}
