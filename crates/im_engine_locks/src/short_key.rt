//! Short keys, in place.

ghost use Rattle.std.specs.Prelude.{◌≡◌, ◌≤◌, length, take};

/// The bytes of a key, with no memory of their own.
#[derive(Clone, Copy)]
pub struct ShortKey {
    bytes: [u8; 32],
    len: usize,
}

impl ShortKey {
    /// No bytes.
    pub fn empty() -> ShortKey {
        ShortKey {
            bytes: [0; 32],
            len: 0,
        }
    }

    /// Makes it a copy of these bytes, where it stands: to make it first and to move it then would wait for the bytes.
    pub fn set(&mut self, bytes: &[u8])
        requires { length bytes.now ≤ 32 }
        ensures { take self.new.len self.new.bytes ≡ bytes.now }
    {
        self.bytes[..bytes.len()].copy_from_slice(bytes);
        self.len = bytes.len();
    }

    /// The bytes: there are no more than have room.
    pub fn as_slice(&self) -> &[u8]
        ensures { result.now ≡ take self.now.len self.now.bytes }
    {
        let len = self.len;
        if len <= 32 {
            &self.bytes[..len]
        } else {
            &self.bytes
        }
    }
}
