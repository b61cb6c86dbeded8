//! The records of a round, applied to the pages of one worker.
ghost use Rattle.std.specs.Prelude.{◌≡◌, ◌≢◌, ◌≤◌, ◌<◌, ◌+◌, ◌-◌, ◌*◌, ◌^◌, ◌||◌, ◌&&◌, ℕ, List, Bool, true, length, get_or, if◌then◌else◌, IfErr, IfOk, OnOk};
ghost use Rattle.im_base_types.specs.declared.fault.Fault.TheVariants.{NotAStore};
ghost use Rattle.im_base_types.specs.Pages.{Page};
ghost use Rattle.im_base_types.specs.Records.{Logged};
ghost use Rattle.im_theory_log.specs.Copies.{redo_one};
ghost use Rattle.im_theory_log.specs.WriterSteps.{applies};
ghost use Rattle.im_log_record.specs.Entry.{view};
ghost use Rattle.im_log_record.specs.Spelling.{IsEntry};
ghost use Rattle.im_log.specs.Spelled.{logged_at};
ghost use Rattle.im_page_rounds.specs.Hand.{AllTaken, AreAmong, AreRising, IsAmong, StandIn, StandsIn};
ghost use Rattle.im_page_rounds.specs.OnePage.{PageRefuses, PageTakes};
ghost use Rattle.im_page_rounds.specs.declared.round_page.RoundPage.{RoundPage};
ghost use Rattle.im_page_rounds.specs.Workers.{AreDealt, HandRedone, IsRedone, is_dealt};

use crate::one_page::redo_on;
use crate::round_page::RoundPage;
use im_base_types::{Fault, Lsn, PageNo};
use im_log::whole_size;
use im_log_record::{Record, decode};
use im_page::Page;

// The record at an LSN, in a part of the log that begins at another. Refused `NotAStore` where none stands there as a whole.
fn record_at(lsn: Lsn, from: Lsn, span: &[u8]) -> Result<Record<'_>, Fault>
    ensures entry { IfOk result (λ x. IsEntry (view x)) }
    ensures found { (r : Logged) → StandsIn from span.now lsn r → IfOk result (λ x. logged_at lsn (view x) ≡ r) }
    ensures some { (r : Logged) → StandsIn from span.now lsn r → IfErr result (λ e. ⊥) }
    ensures refused { IfErr result (λ e. e ≡ NotAStore) }
{
    if lsn < from || lsn - from >= span.len() as u64 {
        return Err(Fault::NotAStore);
    }
    let rest = &span[(lsn - from) as usize..];
    match whole_size(rest) {
        None => Err(Fault::NotAStore),
        Some(size) => decode(&rest[..size]),
    }
}

// Goes past a record of the page at a place of a worker's hand, and answers whether it was applied to it.
fn redo_at(
    pages: &mut [RoundPage],
    place: usize,
    spare: &mut Page,
    lsn: Lsn,
    record: &Record,
) -> Result<bool, Fault>
    requires entry { IsEntry (view record.now) }
    requires within { place < length pages.old }
    ensures redone { IfOk result (λ done. (d : RoundPage) → IsRedone (logged_at lsn (view record.now)) (get_or pages.old place d) done (get_or pages.new place d)) }
    ensures others { (j : ℕ) (d : RoundPage) → j ≢ place → get_or pages.new j d ≡ get_or pages.old j d }
    ensures refused { IfErr result (λ e. (e ≡ NotAStore) × ((d : RoundPage) → PageRefuses (logged_at lsn (view record.now)) (get_or pages.old place d).page.value)) }
    ensures length { length pages.new ≡ length pages.old }
{
    let here = &mut pages[place];
    let done = redo_on(&mut here.page, spare, lsn, record)?;
    here.changed = here.changed || done;
    Ok(done)
}

// Goes past a record, and answers whether it was applied. It is where the page is one of this worker's, which alone are changed. Refused
// `NotAStore` where it is of a page of none of these numbers, or its page needs it and does not take it.
fn redo_in(
    numbers: &[PageNo],
    workers: usize,
    worker: usize,
    pages: &mut [RoundPage],
    spare: &mut Page,
    lsn: Lsn,
    record: &Record,
) -> Result<bool, Fault>
    requires entry { IsEntry (view record.now) }
    requires some { 0 < workers }
    requires few { length numbers.now ≤ workers * length pages.old }
    requires rising { AreRising numbers.now }
    ensures pages { (g : ℕ → Page) (changed : ℕ → Bool) → AreDealt workers worker numbers.now pages.old g changed
        → OnOk result (AreDealt workers worker numbers.now pages.new (λ q. redo_one (logged_at lsn (view record.now)) q (g q)) (λ q. changed q || applies (logged_at lsn (view record.now)) q (g q))) }
    ensures applied { (g : ℕ → Page) (changed : ℕ → Bool) → AreDealt workers worker numbers.now pages.old g changed
        → IfOk result (λ done. done ≡ (is_dealt workers worker numbers.now (logged_at lsn (view record.now)).page && applies (logged_at lsn (view record.now)) (logged_at lsn (view record.now)).page (g (logged_at lsn (view record.now)).page))) }
    ensures taken { (g : ℕ → Page) (changed : ℕ → Bool) → AreDealt workers worker numbers.now pages.old g changed → IsAmong numbers.now (logged_at lsn (view record.now)).page
        → (applies (logged_at lsn (view record.now)) (logged_at lsn (view record.now)).page (g (logged_at lsn (view record.now)).page) ≡ true → PageTakes (logged_at lsn (view record.now)).what (g (logged_at lsn (view record.now)).page))
        → IfErr result (λ e. ⊥) }
    ensures among { OnOk result (IsAmong numbers.now (logged_at lsn (view record.now)).page) }
    ensures length { length pages.new ≡ length pages.old }
    ensures refused { IfErr result (λ e. e ≡ NotAStore) }
{
    match numbers.binary_search(&record.page()) {
        Err(_) => Err(Fault::NotAStore),
        Ok(i) => {
            if i % workers != worker {
                return Ok(false);
            }
            redo_at(pages, i / workers, spare, lsn, record)
        }
    }
}

// One more, where a record was applied.
fn counted(count: u64, applied: bool) -> u64
    requires room { count < 2 ^ 64 - 1 }
    ensures { result ≡ count + (if applied then 1 else 0) }
{
    if applied { count + 1 } else { count }
}

// Redoes the records at these LSNs in turn, whose bytes stand in a part of the log that begins at `from`: each that is of one of this
// worker's pages changes it where it needs that. It answers how many of them were applied.
//
// Refused as `redo_records` is. The pages are then such as some of the records made them.
pub(crate) fn redo_own(
    numbers: &[PageNo],
    workers: usize,
    worker: usize,
    pages: &mut [RoundPage],
    spare: &mut Page,
    lsns: &[Lsn],
    from: Lsn,
    span: &[u8],
) -> Result<u64, Fault>
    requires some { 0 < workers }
    requires few { length numbers.now ≤ workers * length pages.old }
    requires rising { AreRising numbers.now }
    ensures redone { (rs : List Logged) (g : ℕ → Page) (changed : ℕ → Bool) → StandIn from span.now lsns.now rs → AreDealt workers worker numbers.now pages.old g changed
        → IfOk result (λ count. HandRedone workers worker numbers.now rs g changed count pages.new) }
    ensures taken { (rs : List Logged) (g : ℕ → Page) (changed : ℕ → Bool) → StandIn from span.now lsns.now rs → AreDealt workers worker numbers.now pages.old g changed → AreAmong numbers.now rs → AllTaken rs g
        → IfErr result (λ e. ⊥) }
    ensures few { IfOk result (λ count. count ≤ length lsns.now) }
    ensures length { length pages.new ≡ length pages.old }
    ensures refused { IfErr result (λ e. e ≡ NotAStore) }
{
    let mut count = 0;
    for lsn in lsns {
        let record = record_at(*lsn, from, span)?;
        let applied = redo_in(numbers, workers, worker, pages, spare, *lsn, &record)?;
        count = counted(count, applied);
    }
    Ok(count)
}
