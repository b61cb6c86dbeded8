//! The choice of the current log.

ghost use Rattle.std.specs.Prelude.{◌≡◌, ◌⊎◌, ◌↔◌, ◌<◌, ◌≤◌, ℕ, List, true, false, IfErr, IfOk, OnErr, OnOk};
ghost use Rattle.im_base_types.specs.declared.file_id.FileId.TheVariants.{Log, Log2};
ghost use Rattle.im_base_types.specs.declared.fault.Fault.TheVariants.{Device, NotAStore};
ghost use Rattle.im_log_header.specs.Header.{generation_of, IsUnmade};
ghost use Rattle.im_log_choice.specs.Current.{IsCurrent, HasCurrent};
ghost use Rattle.im_log_choice.specs.Found.{AreFound, HasFirst, IsFound, SaysFirst};
ghost use Rattle.im_log_choice.specs.Chosen.{IsChosen};
ghost use Rattle.im_log_choice.specs.Switching.{ReadsNamed};
ghost use Rattle.im_base_disk.specs.Disk.{Files};
ghost use Rattle.im_base_disk.specs.Runs.{Reads};
ghost use Rattle.im_base_disk.specs.Ends.{AnswersOr};

use crate::logs::Logs;
use im_base_disk::Disk;
use im_base_two_logs::TwoLogs;
use im_base_types::{Fault, FileId};
use im_log_header::{LogStart, read_header};

// Which of two logs is the current one.
enum Choice {
    /// The log, or neither is made.
    First,
    /// The other log.
    Second,
    /// Nothing says it.
    Neither,
}

// The generation of a log of which this was found: 0 of one that is not made.
fn generation(found: &Option<LogStart>) -> u64
    ensures generation { (file : List ℕ) → IsFound found.now file → result ≡ generation_of file }
    ensures none { (file : List ℕ) → IsFound found.now file → result ≡ 0 → IsUnmade file }
{
    match found {
        Some(start) => start.header.generation,
        None => 0,
    }
}

// The other log is newer.
fn is_newer(log: u64, other: u64) -> bool
    ensures yes { result ≡ true → log < other }
    ensures no { result ≡ false → other ≤ log }
{
    log < other
}

// Both are made, and of one generation.
fn is_same(log: u64, other: u64) -> bool
    ensures yes { result ≡ true → (log ≡ other) × (0 < log) }
    ensures no { result ≡ false → log ≡ other → log ≡ 0 }
{
    log == other && log > 0
}

// Where the two logs start, by the names that they have.
fn read_both<D: Disk>(disk: &mut D) -> Result<Logs, Fault>
    requires working { D.failed disk.old ≡ false }
    ensures found { IfOk result (λ logs. D.tells → AreFound logs (D.seen disk.old)) }
    ensures stays { IfOk result (λ logs. logs.is_swapped ≡ false) }
    ensures refused { result ≡ Err NotAStore → D.tells → ¬ (HasCurrent (D.seen disk.old)) }
    ensures reads { Reads D.Disk disk.old disk.new }
    ensures causes { IfErr result (λ e. (e ≡ NotAStore) ⊎ (e ≡ Device)) }
    ensures device { result ≡ Err Device ↔ (D.failed disk.new ≡ true) }
{
    let log = read_header(disk, FileId::Log)?;
    let other = read_header(disk, FileId::Log2)?;
    Ok(Logs {
        log,
        other,
        is_swapped: false,
    })
}

// Which of two logs is the current one, of which this was found.
fn which_current(logs: &Logs) -> Choice
    ensures { (files : Files) → AreFound logs.now files → IsChosen result files }
{
    let log = generation(&logs.log);
    let other = generation(&logs.other);
    let newer = is_newer(log, other);
    if newer {
        return Choice::Second;
    }
    let same = is_same(log, other);
    if same {
        return Choice::Neither;
    }
    Choice::First
}

/// Gives the two logs their names: the made one of the greater generation is `Log`; where none is made, neither changes. It only
/// reads, and answers where both start.
///
/// Refused `NotAStore` where a made file is of neither format, or both are of one generation, and the names stay; `Device`.
pub fn choose<D: TwoLogs>(disk: &mut D) -> Result<Logs, Fault>
    requires working { D.failed disk.old ≡ false }
    ensures current { OnOk result (D.tells → IsCurrent false (D.seen disk.new) × HasCurrent (D.seen disk.new)) }
    ensures found { IfOk result (λ logs. D.tells → AreFound logs (D.seen disk.new)) }
    ensures swapped { IfOk result (λ logs. D.tells → IsCurrent logs.is_swapped (D.seen disk.old)) }
    ensures first { IfOk result (λ logs. D.tells → SaysFirst logs ↔ HasFirst (D.seen disk.old)) }
    ensures refused { result ≡ Err NotAStore → D.tells → ¬ (HasCurrent (D.seen disk.old)) }
    ensures reads { ReadsNamed D.Disk disk.old disk.new }
    ensures stays { OnErr result (Reads D.Disk disk.old disk.new) }
    ensures unmade { D.tells → IsUnmade (D.seen disk.old Log) → IsUnmade (D.seen disk.old Log2) → Reads D.Disk disk.old disk.new }
    ensures answers { AnswersOr (λ e. e ≡ NotAStore) (D.failed disk.new) result }
{
    let logs = read_both(disk)?;
    match which_current(&logs) {
        Choice::Neither => Err(Fault::NotAStore),
        Choice::First => Ok(logs),
        Choice::Second => {
            disk.swap_logs();
            Ok(Logs {
                log: logs.other,
                other: logs.log,
                is_swapped: true,
            })
        }
    }
}
