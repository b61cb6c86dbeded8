//! Keys as users type them: text, text in quotation marks, or hexadecimal digits.

use im_base_types::Fault;
use std::alloc::Global;
use std::io;
use std::io::Write;

/// Writes a key as a line takes it: its text where that is printable ASCII without space, quotation mark, `+`, `*` and
/// backslash and does not begin with `x'`; that text in quotation marks where it has spaces too; and all others as `x'6100'`.
pub fn write_key<W: Write>(alloc: Global, writer: &mut W, key: &[u8]) -> io::Result<()> {
    if is_plain(key) {
        return writer.write_all(key);
    }
    if is_quotable(key) {
        writer.write_all(b"\"")?;
        writer.write_all(key)?;
        return writer.write_all(b"\"");
    }
    let digits = hex::encode(alloc, key)?;
    write!(writer, "x'{digits}'")
}

fn is_plain(key: &[u8]) -> bool {
    !key.is_empty() && !key.starts_with(b"x'") && key.iter().all(|byte| is_plain_byte(*byte))
}

fn is_plain_byte(byte: u8) -> bool {
    byte.is_ascii_graphic() && byte != b'"' && byte != b'+' && byte != b'*' && byte != b'\\'
}

fn is_quotable(key: &[u8]) -> bool {
    !key.is_empty()
        && key
            .iter()
            .all(|byte| *byte == b' ' || is_quotable_byte(*byte))
}

fn is_quotable_byte(byte: u8) -> bool {
    byte.is_ascii_graphic() && byte != b'"' && byte != b'\\'
}

/// A key in such a notation at the front of a text, and what stands after it. None where no `x'` and no quotation mark begins it.
///
/// Refused `BadScript` where the notation is not closed or has a digit too few; `Memory`.
pub fn noted_key(alloc: Global, text: &[u8]) -> Result<Option<(Vec<u8>, &[u8])>, Fault> {
    if let [b'"', rest @ ..] = text {
        let (inside, behind) = up_to(rest, b'"')?;
        let key = Vec::from_slice(alloc, inside).map_err(|_| Fault::Memory)?;
        return Ok(Some((key, behind)));
    }
    if let [b'x', b'\'', rest @ ..] = text {
        let (inside, behind) = up_to(rest, b'\'')?;
        let key = digits_of(alloc, inside)?;
        return Ok(Some((key, behind)));
    }
    Ok(None)
}

// What stands in front of the first such byte, and after it.
fn up_to(text: &[u8], end: u8) -> Result<(&[u8], &[u8]), Fault> {
    for place in 0..text.len() {
        if text[place] == end {
            return Ok((&text[..place], &text[place + 1..]));
        }
    }
    Err(Fault::BadScript)
}

fn digits_of(alloc: Global, digits: &[u8]) -> Result<Vec<u8>, Fault> {
    match hex::decode(alloc, digits) {
        Ok(key) => Ok(key),
        Err(hex::FromHexError::OutOfMemory) => Err(Fault::Memory),
        Err(_) => Err(Fault::BadScript),
    }
}
