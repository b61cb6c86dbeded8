//! Whether a transaction's records lead down.

ghost use Rattle.std.specs.Prelude.{◌<◌, ◌↔◌, IsTrue};
ghost use Rattle.im_log_record.specs.Entry.{view};
ghost use Rattle.im_log.specs.Spelled.{logged_at};
ghost use Rattle.im_restart_analysis.specs.Orderly.{IsEarlier, LeadsDown};

use im_base_types::Lsn;
use im_log_record::Record;

// Whether an LSN that a record names is none, or stands before the record.
fn is_earlier(named: Lsn, lsn: Lsn) -> bool
    ensures { IsTrue result ↔ IsEarlier named lsn }
{
    named == 0 || named < lsn
}

/// Whether the LSNs that the record names, where it is a transaction's, are those of records before it.
pub fn leads_down(lsn: Lsn, record: &Record) -> bool
    ensures { IsTrue result ↔ LeadsDown (logged_at lsn (view record.now)) }
{
    record.transaction() == 0
        || (is_earlier(record.prev(), lsn) && is_earlier(record.undo_next(), lsn))
}
