//! Real files: what is refused of a folder, what is read of one that is opened to be read, and the words of errors.

use im_base_disk::{Disk, read_vec, write_synced};
use im_base_types::{Fault, FileId};
use im_files_disk::{FileDisk, OpenError};
use std::alloc::Global;
use std::fs;
use std::test::Fail;

// The refusal of an opening.
fn refused(rt: &HostRuntime, dir: &str) -> Option<Fault> {
    match FileDisk::open(rt, dir) {
        Ok(_) => None,
        Err(error) => Some(error.fault()),
    }
}

// Whether each opening of a folder says that a copy or a load into it was not finished.
fn is_half_a_copy(rt: &HostRuntime, dir: &str) -> bool {
    matches!(FileDisk::open(rt, dir), Err(OpenError::Unfinished))
        && matches!(FileDisk::open_to_read(rt, dir), Err(OpenError::Unfinished))
        && matches!(FileDisk::open_made(rt, dir), Err(OpenError::Unfinished))
}

// Writes three bytes into the log of a folder. It answers the refusal of another opening meanwhile.
fn written(rt: &HostRuntime, dir: &str) -> Result<Option<Fault>, Fail> {
    let mut disk = FileDisk::open(rt, dir)?;
    write_synced(&mut disk, FileId::Log, 0, &[1, 2, 3])?;
    Ok(refused(rt, dir))
}

// The length of the log of files that are opened to be read, and the answer to a write.
fn look(rt: &HostRuntime, dir: &str) -> Result<(u64, Result<(), Fault>), Fail> {
    let mut disk = FileDisk::open_to_read(rt, dir)?;
    let length = disk.len(FileId::Log)?;
    let written = disk.write_at(FileId::Log, 0, &[9]);
    Ok((length, written))
}

// What is answered while a copy goes into a folder, by openings and by another copy; and by an opening once the copy has the names of a store, and is held.
fn copied(rt: &HostRuntime, dir: &str) -> Result<(bool, Option<Fault>, Option<Fault>), Fail> {
    let mut disk = FileDisk::create_copy(rt, dir)?;
    write_synced(&mut disk, FileId::Log, 0, &[1, 2, 3])?;
    let half = is_half_a_copy(rt, dir);
    let other = match FileDisk::create_copy(rt, dir) {
        Ok(_) => None,
        Err(error) => Some(error.fault()),
    };
    let _named = disk.name_copy(rt, dir)?;
    Ok((half, other, refused(rt, dir)))
}

// The lengths of the log that two who read at once find, and the refusal of one who writes.
fn looked_at_twice(rt: &HostRuntime, dir: &str) -> Result<(u64, u64, Option<Fault>), Fail> {
    let mut one = FileDisk::open_to_read(rt, dir)?;
    let mut other = FileDisk::open_to_read(rt, dir)?;
    let first = one.len(FileId::Log)?;
    let second = other.len(FileId::Log)?;
    Ok((first, second, refused(rt, dir)))
}

// The refusal of more bytes than there is memory for.
fn read_past_memory(rt: &HostRuntime, alloc: Global, dir: &str) -> Result<Option<Fault>, Fail> {
    let mut disk = FileDisk::open(rt, dir)?;
    Ok(read_vec(alloc, &mut disk, FileId::Log, 0, usize::MAX).err())
}

#[test]
fn a_folder_has_one_writer(rt: HostRuntime) -> Result<(), Fail> {
    let dir = "im_disk_test/new/store";
    let _ = fs::remove_dir_all(&rt, "im_disk_test");
    assert!(rt; written(&rt, dir)? == Some(Fault::Locked));
    assert!(rt; look(&rt, dir)? == (3, Err(Fault::Device)));
    assert!(rt; FileDisk::open_to_read(&rt, "im_disk_test/new").is_err());
    assert!(rt; read_past_memory(&rt, rt.alloc(), dir)? == Some(Fault::Memory));
    fs::remove_dir_all(&rt, "im_disk_test")?;
    Ok(())
}

#[test]
fn half_a_copy_is_no_store(rt: HostRuntime) -> Result<(), Fail> {
    let dir = "im_disk_copy/store";
    let _ = fs::remove_dir_all(&rt, "im_disk_copy");
    assert!(rt; copied(&rt, dir)? == (true, Some(Fault::Device), Some(Fault::Locked)));
    assert!(rt; !fs::exists(&rt, "im_disk_copy/store/log.part")?);
    assert!(rt; looked_at_twice(&rt, dir)? == (3, 3, Some(Fault::Locked)));
    fs::write(&rt, "im_disk_copy/store/log.part", "")?;
    assert!(rt; is_half_a_copy(&rt, dir));
    fs::remove_file(&rt, "im_disk_copy/store/log.part")?;
    assert!(rt; refused(&rt, dir).is_none());
    fs::remove_dir_all(&rt, "im_disk_copy")?;
    Ok(())
}

#[test]
fn other_files_are_left_as_they_are(rt: HostRuntime) -> Result<(), Fail> {
    let dir = "im_disk_other";
    let log = "im_disk_other/log";
    let pages = "im_disk_other/pages";
    let _ = fs::remove_dir_all(&rt, dir);
    fs::create_dir(&rt, dir)?;
    fs::write(
        &rt,
        log,
        "the lazy dog sleeps while the quick brown fox run",
    )?;
    assert!(rt; refused(&rt, dir) == Some(Fault::NotAStore));
    assert!(rt;
        fs::read(&rt, log)?.as_slice()
            == b"the lazy dog sleeps while the quick brown fox run".as_slice()
    );
    assert!(rt; !fs::exists(&rt, pages)?);
    // One byte less is what a stop may leave of a log before it is made.
    fs::write(&rt, log, "the lazy dog sleeps while the quick brown fox ru")?;
    assert!(rt; refused(&rt, dir).is_none());
    fs::remove_file(&rt, pages)?;
    fs::create_dir(&rt, pages)?;
    assert!(rt; refused(&rt, dir) == Some(Fault::NotAStore));
    assert!(rt; refused(&rt, log) == Some(Fault::Device));
    assert!(rt; refused(&rt, "") == Some(Fault::Device));
    fs::remove_dir_all(&rt, dir)?;
    Ok(())
}

#[test]
fn errors_of_an_opening_have_words(rt: HostRuntime) -> Result<(), Fail> {
    let alloc = rt.alloc();
    let text = format!(in alloc; "{}", OpenError::NotAFile("pages"))?;
    assert!(rt; text.as_str() == "`pages` in it is no plain file");
    let half = format!(in alloc; "{}", OpenError::Unfinished)?;
    assert!(rt; half.as_str() == "a copy or a load into it was not finished");
    let missing = OpenError::from(std::io::Error::from_raw_os_error(2));
    let text = format!(in alloc; "{missing}")?;
    assert!(rt;
        text.as_str()
            == "there is no such folder, and it cannot be made: No such file or directory (os error 2)"
    );
    Ok(())
}
