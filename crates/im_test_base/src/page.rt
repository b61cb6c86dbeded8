//! The bytes of a page, and a search in it.

ghost use Rattle.std.specs.Prelude.{◌≡◌};
ghost use Rattle.im_base_types.specs.declared.page_kind.PageKind.TheVariants.{Leaf};

use im_base_types::PAGE_SIZE;
use im_page::Page;

/// The bytes of a leaf with LSN 36 and the one entry of the key `a` and the row id 7.
fn one_entry(bytes: &mut [u8; PAGE_SIZE]) {
    bytes[7] = 0x24;
    bytes[8] = 0x02;
    bytes[13] = 0x01;
    bytes[14] = 0x0f;
    bytes[15] = 0xf6;
    bytes[32] = 0x0f;
    bytes[33] = 0xf6;
    bytes[4086] = 0x01;
    bytes[4087] = 0x61;
    bytes[4095] = 0x07;
}

/// Keys in order that begin alike: with fewer than eight bytes, with these and zeros, with eight, and with more after the same eight; then a short key above
/// them, and one whose first bit is set.
static ALIKE: [&[u8]; 8] = [
    b"abcdefg",
    b"abcdefg\0",
    b"abcdefg\0\0",
    b"abcdefgh",
    b"abcdefgh\0",
    b"abcdefghi",
    b"abd",
    b"\x80bcdefgh",
];

// Puts a key into a leaf where the search says, if it is one that a page takes.
fn put(page: &mut Page, key: &[u8])
    requires { page.old.body.kind ≡ Leaf }
    ensures { page.new.body.kind ≡ Leaf }
{
    if key.is_empty() || key.len() > 255 {
        return;
    }
    if let Err(i) = page.find(key) {
        let _ = page.insert(i, key, 7);
    }
}

#[test]
fn a_leaf_of_one_entry_has_these_bytes(rt: HostRuntime) {
    let mut want = [0; PAGE_SIZE];
    one_entry(&mut want);
    let mut page = Page::initial(1);
    match page.find(b"a") {
        Err(i) => assert!(rt; page.insert(i, b"a", 7).is_ok()),
        Ok(_) => assert!(rt; false),
    }
    page.set_lsn(36);
    assert!(rt; page.bytes() == want.as_slice());
}

#[test]
fn keys_that_begin_alike_have_their_places(rt: HostRuntime) {
    let mut page = Page::initial(1);
    put(&mut page, ALIKE[3]);
    put(&mut page, ALIKE[0]);
    put(&mut page, ALIKE[7]);
    put(&mut page, ALIKE[5]);
    put(&mut page, ALIKE[1]);
    put(&mut page, ALIKE[6]);
    put(&mut page, ALIKE[2]);
    put(&mut page, ALIKE[4]);
    for (i, key) in ALIKE.iter().enumerate() {
        assert!(rt; page.find(key) == Ok(i), "{i}");
    }
    assert!(rt; page.find(b"abcdef") == Err(0));
    assert!(rt; page.find(b"abcdefgh\0\0") == Err(5));
    assert!(rt; page.find(b"abcdefgj") == Err(6));
    assert!(rt; page.find(b"\x7fbcdefgh") == Err(7));
}
