//! What a record of the log says.
ghost use Rattle.std.specs.Prelude.{◌≡◌, ◌≤◌, length, None};
ghost use Rattle.im_log_record.specs.Entry.{Checkpoint, view, transaction_of, prev_of, undo_next_of, page_of};
ghost use Rattle.im_log_record.specs.Kind.{kind_of};
ghost use Rattle.im_log_record.specs.Spelling.{IsEntry, Rise, size_of};

use crate::active_list::{ActiveList, law_actives_fit};
use crate::dirty_list::{DirtyList, law_dirties_fit};
use crate::kind::Kind;
use im_base_types::{ActiveTransaction, DirtyPage};

/// A record of the log. Each kind has the fields that it uses; the others are zero in its bytes. Keys, page images
/// and lists are borrowed: from the step and the pool where a record is written, and from the log's bytes where it
/// is read.
///
/// `prev` is the transaction's preceding LSN and `undo_next` its next LSN to undo; 0 stands for none.
#[derive(Clone, Copy)]
pub enum Record<'a> {
    /// A key put into its leaf. A key has 1 to 255 bytes.
    InsertKey {
        transaction: u64,
        prev: u64,
        page: u32,
        key: &'a [u8],
        rid: u64,
    },
    /// A key taken out of its leaf, with the row id that goes.
    DeleteKey {
        transaction: u64,
        prev: u64,
        page: u32,
        key: &'a [u8],
        rid: u64,
    },
    /// The compensation of an `InsertKey`: the key is taken out.
    UndoInsert {
        transaction: u64,
        prev: u64,
        undo_next: u64,
        page: u32,
        key: &'a [u8],
        rid: u64,
    },
    /// The compensation of a `DeleteKey`: the key is put back.
    UndoDelete {
        transaction: u64,
        prev: u64,
        undo_next: u64,
        page: u32,
        key: &'a [u8],
        rid: u64,
    },
    /// One page of a structure modification, before and after, each without the LSN in its first eight bytes:
    /// 4,088 bytes.
    Smo {
        transaction: u64,
        prev: u64,
        page: u32,
        before: &'a [u8],
        after: &'a [u8],
    },
    /// The compensation of an `Smo`: the page after the undo, without its LSN.
    UndoSmo {
        transaction: u64,
        prev: u64,
        undo_next: u64,
        page: u32,
        after: &'a [u8],
    },
    /// The end of a structure modification, over which undo passes.
    DummyClr {
        transaction: u64,
        prev: u64,
        undo_next: u64,
    },
    /// The transaction's effect counts.
    Commit {
        transaction: u64,
        prev: u64,
    },
    /// Nothing of the transaction is left.
    End {
        transaction: u64,
        prev: u64,
    },
    /// A full copy of a page with its own LSN: 4,096 bytes.
    Image {
        page: u32,
        bytes: &'a [u8],
    },
    /// The tables of active transactions and of dirty pages at a moment.
    Checkpoint {
        /// The next transaction number.
        next: u64,
        /// At most 64, in rising number.
        active: ActiveList<'a>,
        /// At most 1,024, in rising number.
        dirty: DirtyList<'a>,
    },
}

impl Record<'_> {
    /// The checkpoint of these tables.
    pub fn checkpoint<'a>(
        next: u64,
        active: &'a [ActiveTransaction],
        dirty: &'a [DirtyPage],
    ) -> Record<'a>
        requires active_most { length active.now ≤ 64 }
        requires active_rise { Rise (λ a. a.transaction) None active.now }
        requires dirty_most { length dirty.now ≤ 1024 }
        requires dirty_rise { Rise (λ d. d.page) None dirty.now }
        ensures view { view result ≡ Checkpoint next active.now dirty.now }
        ensures entry { IsEntry (view result) }
    {
        law_actives_fit(active);
        law_dirties_fit(dirty);
        Record::Checkpoint {
            next,
            active: ActiveList::Rows(active),
            dirty: DirtyList::Rows(dirty),
        }
    }

    /// How many bytes the record takes.
    #[inline]
    pub fn size(&self) -> usize
        requires { IsEntry (view self.now) }
        ensures { result ≡ size_of (view self.now) }
    {
        match self {
            Record::InsertKey { key, .. }
            | Record::DeleteKey { key, .. }
            | Record::UndoInsert { key, .. }
            | Record::UndoDelete { key, .. } => 42 + key.len(),
            Record::Smo { before, after, .. } => 49 + before.len() + after.len(),
            Record::UndoSmo { after, .. } => 41 + after.len(),
            Record::DummyClr { .. } | Record::Commit { .. } | Record::End { .. } => 33,
            Record::Image { bytes, .. } => 33 + bytes.len(),
            Record::Checkpoint { active, dirty, .. } => 45 + 24 * active.len() + 12 * dirty.len(),
        }
    }

    /// Its kind.
    #[inline]
    pub fn kind(&self) -> Kind
        ensures { result ≡ kind_of (view self.now) }
    {
        match self {
            Record::InsertKey { .. } => Kind::InsertKey,
            Record::DeleteKey { .. } => Kind::DeleteKey,
            Record::UndoInsert { .. } => Kind::UndoInsert,
            Record::UndoDelete { .. } => Kind::UndoDelete,
            Record::Smo { .. } => Kind::Smo,
            Record::UndoSmo { .. } => Kind::UndoSmo,
            Record::DummyClr { .. } => Kind::DummyClr,
            Record::Commit { .. } => Kind::Commit,
            Record::End { .. } => Kind::End,
            Record::Image { .. } => Kind::Image,
            Record::Checkpoint { .. } => Kind::Checkpoint,
        }
    }

    /// The transaction that wrote it; 0 for an `Image` and a `Checkpoint`.
    #[inline]
    pub fn transaction(&self) -> u64
        ensures { result ≡ transaction_of (view self.now) }
    {
        match self {
            Record::InsertKey { transaction, .. }
            | Record::DeleteKey { transaction, .. }
            | Record::UndoInsert { transaction, .. }
            | Record::UndoDelete { transaction, .. }
            | Record::Smo { transaction, .. }
            | Record::UndoSmo { transaction, .. }
            | Record::DummyClr { transaction, .. }
            | Record::Commit { transaction, .. }
            | Record::End { transaction, .. } => *transaction,
            Record::Image { .. } | Record::Checkpoint { .. } => 0,
        }
    }

    /// The transaction's preceding LSN; 0 for none, and for an `Image` and a `Checkpoint`.
    #[inline]
    pub fn prev(&self) -> u64
        ensures { result ≡ prev_of (view self.now) }
    {
        match self {
            Record::InsertKey { prev, .. }
            | Record::DeleteKey { prev, .. }
            | Record::UndoInsert { prev, .. }
            | Record::UndoDelete { prev, .. }
            | Record::Smo { prev, .. }
            | Record::UndoSmo { prev, .. }
            | Record::DummyClr { prev, .. }
            | Record::Commit { prev, .. }
            | Record::End { prev, .. } => *prev,
            Record::Image { .. } | Record::Checkpoint { .. } => 0,
        }
    }

    /// A compensation's next LSN to undo; 0 for none, and for the kinds that compensate nothing.
    #[inline]
    pub fn undo_next(&self) -> u64
        ensures { result ≡ undo_next_of (view self.now) }
    {
        match self {
            Record::UndoInsert { undo_next, .. }
            | Record::UndoDelete { undo_next, .. }
            | Record::UndoSmo { undo_next, .. }
            | Record::DummyClr { undo_next, .. } => *undo_next,
            _ => 0,
        }
    }

    /// The page that it changes or copies; 0 for a `DummyClr`, `Commit`, `End` and `Checkpoint`.
    #[inline]
    pub fn page(&self) -> u32
        ensures { result ≡ page_of (view self.now) }
    {
        match self {
            Record::InsertKey { page, .. }
            | Record::DeleteKey { page, .. }
            | Record::UndoInsert { page, .. }
            | Record::UndoDelete { page, .. }
            | Record::Smo { page, .. }
            | Record::UndoSmo { page, .. }
            | Record::Image { page, .. } => *page,
            _ => 0,
        }
    }
}
