//! A record as bytes, at a place in a buffer.
ghost use Rattle.std.specs.Prelude.{◌≡◌, ◌+◌, ◌*◌, ◌≤◌, ◌<◌, ◌++◌, [], length, take};
ghost use Rattle.std.specs.List.{flat_map};
ghost use Rattle.im_log_record.specs.Entry.{view, active_rows, dirty_rows, transaction_of, prev_of, undo_next_of, page_of};
ghost use Rattle.im_log_record.specs.Kind.{number_of, kind_of};
ghost use Rattle.im_log_record.specs.Spelling.{word16, word32, word64, front, whole, keyed, blank, active_bytes, dirty_bytes, tables, spelling, size_of, IsEntry};

use crate::active_list::ActiveList;
use crate::dirty_list::DirtyList;
use crate::kind::Kind;
use crate::record::Record;
use byteorder::{BigEndian, ByteOrder};
use im_base_types::{ActiveTransaction, DirtyPage};

const FRONT: u32 = 33;

// The fields that every record has.
#[derive(Clone, Copy)]
struct Fields {
    kind: Kind,
    transaction: u64,
    prev: u64,
    undo_next: u64,
    page: u32,
}

// Each of these writes after the front of a buffer, and answers where that front then ends.
#[inline]
fn put(out: &mut [u8], at: usize, bytes: &[u8]) -> usize
    requires room { at + length bytes.now ≤ length out.old }
    ensures end { result ≡ at + length bytes.now }
    ensures front { take result out.new ≡ take at out.old ++ bytes.now }
{
    let end = at + bytes.len();
    out[at..end].copy_from_slice(bytes);
    end
}

#[inline]
#[tactic(auto, unfolding(crate::specs::Spelling::word16))]
fn put16(out: &mut [u8], at: usize, number: u16) -> usize
    requires room { at + 2 ≤ length out.old }
    ensures end { result ≡ at + 2 }
    ensures front { take result out.new ≡ take at out.old ++ word16 number }
{
    BigEndian::write_u16(&mut out[at..at + 2], number);
    at + 2
}

#[inline]
#[tactic(auto, unfolding(crate::specs::Spelling::word32))]
fn put32(out: &mut [u8], at: usize, number: u32) -> usize
    requires room { at + 4 ≤ length out.old }
    ensures end { result ≡ at + 4 }
    ensures front { take result out.new ≡ take at out.old ++ word32 number }
{
    BigEndian::write_u32(&mut out[at..at + 4], number);
    at + 4
}

#[inline]
#[tactic(auto, unfolding(crate::specs::Spelling::word64))]
fn put64(out: &mut [u8], at: usize, number: u64) -> usize
    requires room { at + 8 ≤ length out.old }
    ensures end { result ≡ at + 8 }
    ensures front { take result out.new ≡ take at out.old ++ word64 number }
{
    BigEndian::write_u64(&mut out[at..at + 8], number);
    at + 8
}

// The 33 bytes of every record, in front of so many others.
#[inline]
fn put_front(out: &mut [u8], at: usize, fields: Fields, added: u32) -> usize
    requires room { at + 33 ≤ length out.old }
    requires fits { added < 65536 }
    ensures end { result ≡ at + 33 }
    ensures front { take result out.new ≡ take at out.old ++ front (number_of fields.kind) fields.transaction fields.prev fields.undo_next fields.page added }
{
    let at = put32(out, at, FRONT + added);
    let at = put(out, at, &[fields.kind.number()]);
    let at = put64(out, at, fields.transaction);
    let at = put64(out, at, fields.prev);
    let at = put64(out, at, fields.undo_next);
    put32(out, at, fields.page)
}

#[inline]
fn put_keyed(out: &mut [u8], at: usize, key: &[u8], rid: u64) -> usize
    requires room { at + length key.now + 9 ≤ length out.old }
    requires fits { length key.now ≤ 255 }
    ensures end { result ≡ at + length key.now + 9 }
    ensures front { take result out.new ≡ take at out.old ++ keyed key.now rid }
{
    let at = put(out, at, &[key.len() as u8]);
    let at = put(out, at, key);
    put64(out, at, rid)
}

fn put_blank(out: &mut [u8], at: usize, body: &[u8]) -> usize
    requires room { at + 8 + length body.now ≤ length out.old }
    ensures end { result ≡ at + 8 + length body.now }
    ensures front { take result out.new ≡ take at out.old ++ blank body.now }
{
    let at = put64(out, at, 0);
    put(out, at, body)
}

fn put_active(out: &mut [u8], at: usize, active: &ActiveTransaction) -> usize
    requires room { at + 24 ≤ length out.old }
    ensures end { result ≡ at + 24 }
    ensures front { take result out.new ≡ take at out.old ++ active_bytes active.now }
{
    let at = put64(out, at, active.transaction);
    let at = put64(out, at, active.last);
    put64(out, at, active.undo_next)
}

fn put_dirty(out: &mut [u8], at: usize, dirty: &DirtyPage) -> usize
    requires room { at + 12 ≤ length out.old }
    ensures end { result ≡ at + 12 }
    ensures front { take result out.new ≡ take at out.old ++ dirty_bytes dirty.now }
{
    let at = put32(out, at, dirty.page);
    put64(out, at, dirty.rec_lsn)
}

// The records, by what their kinds add.
#[inline]
fn put_key_record(out: &mut [u8], at: usize, fields: Fields, key: &[u8], rid: u64) -> usize
    requires room { at + (42 + length key.now) ≤ length out.old }
    requires fits { length key.now ≤ 255 }
    ensures end { result ≡ at + (42 + length key.now) }
    ensures front { take result out.new ≡ take at out.old ++ whole (number_of fields.kind) fields.transaction fields.prev fields.undo_next fields.page (keyed key.now rid) }
{
    let at = put_front(out, at, fields, key.len() as u32 + 9);
    put_keyed(out, at, key, rid)
}

#[inline]
fn put_bare_record(out: &mut [u8], at: usize, fields: Fields) -> usize
    requires room { at + 33 ≤ length out.old }
    ensures end { result ≡ at + 33 }
    ensures front { take result out.new ≡ take at out.old ++ whole (number_of fields.kind) fields.transaction fields.prev fields.undo_next fields.page [] }
{
    put_front(out, at, fields, 0)
}

fn put_bytes_record(out: &mut [u8], at: usize, fields: Fields, bytes: &[u8]) -> usize
    requires room { at + (33 + length bytes.now) ≤ length out.old }
    requires fits { length bytes.now < 65536 }
    ensures end { result ≡ at + (33 + length bytes.now) }
    ensures front { take result out.new ≡ take at out.old ++ whole (number_of fields.kind) fields.transaction fields.prev fields.undo_next fields.page bytes.now }
{
    let at = put_front(out, at, fields, bytes.len() as u32);
    put(out, at, bytes)
}

fn put_body_record(out: &mut [u8], at: usize, fields: Fields, body: &[u8]) -> usize
    requires room { at + (41 + length body.now) ≤ length out.old }
    requires fits { length body.now < 8192 }
    ensures end { result ≡ at + (41 + length body.now) }
    ensures front { take result out.new ≡ take at out.old ++ whole (number_of fields.kind) fields.transaction fields.prev fields.undo_next fields.page (blank body.now) }
{
    let at = put_front(out, at, fields, body.len() as u32 + 8);
    put_blank(out, at, body)
}

fn put_bodies_record(
    out: &mut [u8],
    at: usize,
    fields: Fields,
    before: &[u8],
    after: &[u8],
) -> usize
    requires room { at + (49 + length before.now + length after.now) ≤ length out.old }
    requires before { length before.now < 8192 }
    requires after { length after.now < 8192 }
    ensures end { result ≡ at + (49 + length before.now + length after.now) }
    ensures front { take result out.new ≡ take at out.old ++ whole (number_of fields.kind) fields.transaction fields.prev fields.undo_next fields.page (blank before.now ++ blank after.now) }
{
    let at = put_front(out, at, fields, (before.len() + after.len()) as u32 + 16);
    let at = put_blank(out, at, before);
    put_blank(out, at, after)
}

fn put_actives(out: &mut [u8], at: usize, list: &ActiveList<'_>) -> usize
    requires { at + 24 * length (active_rows list.now) ≤ length out.old }
    ensures end { result ≡ at + 24 * length (active_rows list.now) }
    ensures front { take result out.new ≡ take at out.old ++ flat_map active_bytes (active_rows list.now) }
{
    let mut end = at;
    for i in 0..list.len() {
        end = put_active(out, end, &list.row(i));
    }
    end
}

fn put_dirties(out: &mut [u8], at: usize, list: &DirtyList<'_>) -> usize
    requires { at + 12 * length (dirty_rows list.now) ≤ length out.old }
    ensures end { result ≡ at + 12 * length (dirty_rows list.now) }
    ensures front { take result out.new ≡ take at out.old ++ flat_map dirty_bytes (dirty_rows list.now) }
{
    let mut end = at;
    for i in 0..list.len() {
        end = put_dirty(out, end, &list.row(i));
    }
    end
}

fn put_tables_record(
    out: &mut [u8],
    at: usize,
    fields: Fields,
    next: u64,
    active: &ActiveList<'_>,
    dirty: &DirtyList<'_>,
) -> usize
    requires room { at + (45 + 24 * length (active_rows active.now) + 12 * length (dirty_rows dirty.now)) ≤ length out.old }
    requires active { length (active_rows active.now) ≤ 64 }
    requires dirty { length (dirty_rows dirty.now) ≤ 1024 }
    ensures end { result ≡ at + (45 + 24 * length (active_rows active.now) + 12 * length (dirty_rows dirty.now)) }
    ensures front { take result out.new ≡ take at out.old ++ whole (number_of fields.kind) fields.transaction fields.prev fields.undo_next fields.page (tables next (active_rows active.now) (dirty_rows dirty.now)) }
{
    let added = 12 + 24 * active.len() as u32 + 12 * dirty.len() as u32;
    let at = put_front(out, at, fields, added);
    let at = put64(out, at, next);
    let at = put16(out, at, active.len() as u16);
    let at = put_actives(out, at, active);
    let at = put16(out, at, dirty.len() as u16);
    put_dirties(out, at, dirty)
}

// The fields of a record that stand in front of its payload.
#[inline]
fn fields_of(written: &Record<'_>) -> Fields
    ensures kind { result.kind ≡ kind_of (view written.now) }
    ensures transaction { result.transaction ≡ transaction_of (view written.now) }
    ensures prev { result.prev ≡ prev_of (view written.now) }
    ensures undo_next { result.undo_next ≡ undo_next_of (view written.now) }
    ensures page { result.page ≡ page_of (view written.now) }
{
    Fields {
        kind: written.kind(),
        transaction: written.transaction(),
        prev: written.prev(),
        undo_next: written.undo_next(),
        page: written.page(),
    }
}

impl Record<'_> {
    /// Writes the record into a buffer, after its first bytes, and answers where the record ends. It takes no
    /// memory.
    #[inline]
    pub fn encode(&self, out: &mut [u8], at: usize) -> usize
        requires entry { IsEntry (view self.now) }
        requires room { at + size_of (view self.now) ≤ length out.old }
        ensures end { result ≡ at + size_of (view self.now) }
        ensures front { take result out.new ≡ take at out.old ++ spelling (view self.now) }
    {
        let fields = fields_of(self);
        match self {
            Record::InsertKey { key, rid, .. } => put_key_record(out, at, fields, key, *rid),
            Record::DeleteKey { key, rid, .. } => put_key_record(out, at, fields, key, *rid),
            Record::UndoInsert { key, rid, .. } => put_key_record(out, at, fields, key, *rid),
            Record::UndoDelete { key, rid, .. } => put_key_record(out, at, fields, key, *rid),
            Record::Smo { before, after, .. } => {
                put_bodies_record(out, at, fields, before, after)
            }
            Record::UndoSmo { after, .. } => put_body_record(out, at, fields, after),
            Record::DummyClr { .. } => put_bare_record(out, at, fields),
            Record::Commit { .. } => put_bare_record(out, at, fields),
            Record::End { .. } => put_bare_record(out, at, fields),
            Record::Image { bytes, .. } => put_bytes_record(out, at, fields, bytes),
            Record::Checkpoint {
                next,
                active,
                dirty,
            } => put_tables_record(out, at, fields, *next, active, dirty),
        }
    }
}
