//! The logs of a store in a folder, made as short as a close leaves them.

ghost use Rattle.std.specs.Prelude.{◌≤◌, IfOk};

use crate::limits::config_of;
use crate::store::ended;
use crate::tasks::tell_damage;
use im_base_two_logs::Renamed;
use im_base_types::Fault;
use im_files_disk::FileDisk;
use im_store::{Bounds, OpenStore};
use im_tool_files::{
    Causes, Opening, WatchedDisk, log_bytes, print_refused_opening, tell, tell_unopened,
    trim_program,
};
use im_tool_user::Options;
use std::io;
use std::io::{BufWriter, Write};
use std::thread::Threads;

/// A close leaves no log of more bytes.
const MOST: u64 = 65_536;

/// Makes the logs of the store in a folder short, which no other program has open, and prints how many bytes that gives back. Where one is longer than a close leaves it, the store is
/// opened and closed first; then what no opening reads of the two is cut. It answers the exit status: 0, or 1 where something was refused.
pub(crate) fn trim_in_folder<T: Threads + Sync>(
    rt: &HostRuntime,
    threads: &T,
    dir: &str,
    options: &Options,
) -> io::Result<u8>
    ensures { IfOk result (λ status. status ≤ 1) }
{
    let Some((both, longest)) = log_bytes(rt, dir) else {
        if trim_program(rt, dir, 0)? == 0 {
            tell(
                rt,
                dir,
                &"how long its logs were could not be read: they may be longer than a close leaves them",
            );
        }
        return Ok(1);
    };
    if longest <= MOST {
        return trim_program(rt, dir, 0);
    }
    let mut writer = BufWriter::new(rt.alloc(), io::writer(rt))?;
    let is_closed = close_in_folder(rt, threads, dir, options, &mut writer)?;
    writer.flush()?;
    if !is_closed {
        return Ok(1);
    }
    let left = match log_bytes(rt, dir) {
        Some((left, _)) => left,
        None => both,
    };
    trim_program(rt, dir, both.saturating_sub(left))
}

// Opens a store and closes it. It answers whether nothing of that was refused.
fn close_in_folder<W: Write, T: Threads + Sync>(
    rt: &HostRuntime,
    threads: &T,
    dir: &str,
    options: &Options,
    writer: &mut W,
) -> io::Result<bool> {
    let files = match FileDisk::open(rt, dir) {
        Ok(files) => files,
        Err(error) => {
            print_refused_opening(writer, error.fault())?;
            tell_unopened(rt, dir, &error);
            return Ok(false);
        }
    };
    let config = config_of(options, files.page_count());
    let disk = WatchedDisk::new(files, rt.stderr(), rt);
    let mut causes = Causes {
        writer: rt.stderr(),
        dir,
        is_told: false,
    };
    match OpenStore::open(
        threads,
        rt.alloc(),
        Renamed::new(disk, false),
        config,
        Bounds::default(),
    ) {
        Ok(store) => {
            store.engine().disk().is_done();
            if let Err(fault) = ended(store, &mut causes) {
                writeln!(writer, "trim refused {}", fault.number())?;
                tell(rt, dir, &fault);
                return Ok(false);
            }
            Ok(true)
        }
        Err((fault, disk)) => {
            print_refused_opening(writer, fault)?;
            causes.tell(&disk);
            tell(rt, dir, &fault);
            if fault == Fault::NotAStore {
                tell_damage(rt, threads, dir);
            }
            Ok(false)
        }
    }
}
