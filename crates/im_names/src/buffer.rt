//! Bytes after the front of a buffer.
ghost use Rattle.std.specs.Prelude.{◌≡◌, ◌+◌, ◌-◌, ◌*◌, ◌≤◌, ◌<◌, ◌++◌, [], ◌∷◌, length, take, replicate};
ghost use Rattle.im_names.specs.Layout.{escape, escaped, number_of};

// Each of these writes after the front of a buffer, and answers where that front then ends.
#[inline]
pub(crate) fn put(out: &mut [u8], at: usize, bytes: &[u8]) -> usize
    requires room { at + length bytes.now ≤ length out.old }
    ensures end { result ≡ at + length bytes.now }
    ensures front { take result out.new ≡ take at out.old ++ bytes.now }
{
    let end = at + bytes.len();
    out[at..end].copy_from_slice(bytes);
    end
}

#[inline]
pub(crate) fn put_byte(out: &mut [u8], at: usize, byte: u8) -> usize
    requires room { at < length out.old }
    ensures end { result ≡ at + 1 }
    ensures front { take result out.new ≡ take at out.old ++ (byte ∷ []) }
{
    out[at] = byte;
    at + 1
}

// A part's number.
#[inline]
#[tactic(auto, unfolding(crate::specs::Layout::number_of))]
pub(crate) fn put_number(out: &mut [u8], at: usize, number: u32) -> usize
    requires room { at + 3 ≤ length out.old }
    requires fits { number < 16777216 }
    ensures end { result ≡ at + 3 }
    ensures front { take result out.new ≡ take at out.old ++ number_of number }
{
    put(
        out,
        at,
        &[
            (number / 65536) as u8,
            (number / 256 % 256) as u8,
            (number % 256) as u8,
        ],
    )
}

// FF up to an end.
#[tactic(auto, using(crate::proofs::Buffers::filled_none, crate::proofs::Buffers::filled_more))]
pub(crate) fn fill(out: &mut [u8], at: usize, end: usize)
    requires order { at ≤ end }
    requires room { end ≤ length out.old }
    ensures front { take end out.new ≡ take at out.old ++ replicate (end - at) 255 }
{
    for i in at..end {
        out[i] = 0xff;
    }
}

// How many bytes a byte of a long value's key takes in its parts.
#[tactic(auto, using(crate::proofs::Escapes::escape_zero, crate::proofs::Escapes::escape_other))]
fn size_of(byte: u8) -> usize
    ensures size { result ≡ length (escape byte) }
    ensures small { result ≤ 2 }
{
    if byte == 0 { 2 } else { 1 }
}

// The same of a key.
pub(crate) fn escaped_size(key: &[u8]) -> usize
    requires { length key.now ≤ 255 }
    ensures size { result ≡ length (escaped key.now) }
    ensures small { result ≤ 2 * length key.now }
{
    let mut size = 0;
    for byte in key {
        size += size_of(*byte);
    }
    size
}

// A byte of a long value's key, with a byte FF after a 0.
#[tactic(auto, using(crate::proofs::Escapes::escape_zero, crate::proofs::Escapes::escape_other))]
fn put_one(out: &mut [u8], at: usize, byte: u8) -> usize
    requires room { at + length (escape byte) ≤ length out.old }
    ensures end { result ≡ at + length (escape byte) }
    ensures front { take result out.new ≡ take at out.old ++ escape byte }
{
    if byte == 0 {
        put(out, at, &[0, 0xff])
    } else {
        put(out, at, &[byte])
    }
}

// All of them.
#[tactic(auto, using(crate::proofs::Escapes::escaped_fits))]
pub(crate) fn put_escaped(out: &mut [u8], at: usize, key: &[u8]) -> usize
    requires { at + length (escaped key.now) ≤ length out.old }
    ensures end { result ≡ at + length (escaped key.now) }
    ensures front { take result out.new ≡ take at out.old ++ escaped key.now }
{
    let mut end = at;
    for byte in key {
        end = put_one(out, end, *byte);
    }
    end
}
