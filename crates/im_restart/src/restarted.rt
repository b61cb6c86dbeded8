//! A store's log and pages after an opening.

use im_base_types::{RedoReport, TxnId};
use im_page_writer::PageWriter;

/// The log and the pages of a store, open after its last record, the number of the next transaction, and what redo did.
#[derive(Drop)]
pub struct Restarted {
    pub writer: PageWriter,
    pub next: TxnId,
    pub report: RedoReport,
}
