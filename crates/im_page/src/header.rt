//! The header of a page: what it says, and how its bytes are written.

ghost use Rattle.std.specs.Prelude.{◌≡◌, ◌≤◌, length, if◌then◌else◌};
ghost use Rattle.im_theory_page.specs.Number.{u64_at};
ghost use Rattle.im_theory_page.specs.Page.{kind_of, said_by, IsForm};
ghost use Rattle.im_theory_page.specs.Header.{FitsKind, empty_body, initial};
ghost use Rattle.im_page.specs.Edit.{IsErased, HasHeader};

use crate::number::{put_u8, put_u16, put_u32, put_u64};
use crate::removal::clear;
use im_base_types::{PAGE_SIZE, PageKind};

/// What a page is for: its kind, its level, 0 for a leaf, and how many entries it has.
#[derive(Clone, Copy, Debug, PartialEq, Eq)]
pub struct Header {
    pub kind: PageKind,
    pub level: u8,
    pub count: usize,
}

/// The number of a kind.
fn code(kind: PageKind) -> u8
    ensures kind { kind_of result ≡ kind }
    ensures known { result ≤ 3 }
{
    match kind {
        PageKind::Free => 0,
        PageKind::Meta => 1,
        PageKind::Leaf => 2,
        PageKind::Inner => 3,
    }
}

/// The flags of a page: bit 0 is its mark.
pub fn flags(marked: bool) -> u8
    ensures { result ≡ (if marked then 1 else 0) }
{
    if marked { 1 } else { 0 }
}

/// Leaves nothing but the LSN.
fn erase(bytes: &mut [u8])
    requires { length bytes.old ≡ 4096 }
    ensures { IsErased bytes.old bytes.new }
{
    clear(bytes, 8, PAGE_SIZE);
    put_u16(bytes, 14, PAGE_SIZE);
}

/// Writes the fields of a header but its LSN and mark.
fn put_header(bytes: &mut [u8], kind: u8, level: u8, prev: u32, next: u32, leftmost: u32)
    requires { length bytes.old ≡ 4096 }
    ensures { HasHeader bytes.old bytes.new kind level prev next leftmost }
{
    put_u8(bytes, 8, kind);
    put_u8(bytes, 9, level);
    put_u32(bytes, 16, prev);
    put_u32(bytes, 20, next);
    put_u32(bytes, 24, leftmost);
}

/// Makes bytes a page of this kind with no entry. The LSN stays.
pub fn make_empty(bytes: &mut [u8], kind: PageKind, level: u8, prev: u32, next: u32, leftmost: u32)
    requires len { length bytes.old ≡ 4096 }
    requires header { FitsKind kind level prev next leftmost 0 }
    ensures form { IsForm bytes.new }
    ensures page { said_by bytes.new ≡ record { lsn = u64_at bytes.old 0; body = empty_body kind level prev next leftmost } }
{
    erase(bytes);
    put_header(bytes, code(kind), level, prev, next, leftmost);
}

/// Makes bytes the page of a number before anything was put.
pub fn make_initial(bytes: &mut [u8], number: u32)
    requires { length bytes.old ≡ 4096 }
    ensures form { IsForm bytes.new }
    ensures page { said_by bytes.new ≡ initial number }
{
    put_u64(bytes, 0, 0);
    match number {
        0 => make_empty(bytes, PageKind::Meta, 0, 0, 0, 2),
        1 => make_empty(bytes, PageKind::Leaf, 0, 0, 0, 0),
        _ => make_empty(bytes, PageKind::Free, 0, 0, 0, 0),
    }
}
