//! Records as the format gives them, byte for byte.

use im_base_types::{ActiveTransaction, DirtyPage};
use im_log_record::{ActiveList, DirtyList, Record};

static INSERT: [u8; 43] = [
    0, 0, 0, 0x2b, 1, 0, 0, 0, 0, 0, 0, 0, 1, 0, 0, 0, 0, 0, 0, 0, 0, 0, 0, 0, 0, 0, 0, 0, 0, 0, 0,
    0, 1, 1, 0x61, 0, 0, 0, 0, 0, 0, 0, 7,
];

static COMMIT: [u8; 33] = [
    0, 0, 0, 0x21, 8, 0, 0, 0, 0, 0, 0, 0, 1, 0, 0, 0, 0, 0, 0, 0, 0x24, 0, 0, 0, 0, 0, 0, 0, 0, 0,
    0, 0, 0,
];

static CHECKPOINT: [u8; 81] = [
    0, 0, 0, 0x51, 11, 0, 0, 0, 0, 0, 0, 0, 0, 0, 0, 0, 0, 0, 0, 0, 0, 0, 0, 0, 0, 0, 0, 0, 0, 0,
    0, 0, 0, 0, 0, 0, 0, 0, 0, 0, 2, 0, 1, 0, 0, 0, 0, 0, 0, 0, 1, 0, 0, 0, 0, 0, 0, 0, 0x24, 0, 0,
    0, 0, 0, 0, 0, 0x24, 0, 1, 0, 0, 0, 1, 0, 0, 0, 0, 0, 0, 0, 0x24,
];

#[test]
fn an_insert_is_written(rt: HostRuntime) {
    let insert = Record::InsertKey {
        transaction: 1,
        prev: 0,
        page: 1,
        key: b"a",
        rid: 7,
    };
    let mut buffer = [0; 43];
    assert!(rt; insert.encode(&mut buffer, 0) == 43);
    assert!(rt; buffer.as_slice() == INSERT.as_slice());
}

#[test]
fn a_commit_is_written(rt: HostRuntime) {
    let commit = Record::Commit {
        transaction: 1,
        prev: 36,
    };
    let mut buffer = [0; 33];
    assert!(rt; commit.encode(&mut buffer, 0) == 33);
    assert!(rt; buffer.as_slice() == COMMIT.as_slice());
}

#[test]
fn a_checkpoint_is_written(rt: HostRuntime) {
    let active = [ActiveTransaction {
        transaction: 1,
        last: 36,
        undo_next: 36,
    }];
    let dirty = [DirtyPage {
        page: 1,
        rec_lsn: 36,
    }];
    let checkpoint = Record::Checkpoint {
        next: 2,
        active: ActiveList::Rows(&active),
        dirty: DirtyList::Rows(&dirty),
    };
    let mut buffer = [0; 81];
    assert!(rt; checkpoint.encode(&mut buffer, 0) == 81);
    assert!(rt; buffer.as_slice() == CHECKPOINT.as_slice());
}
