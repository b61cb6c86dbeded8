//! Keys as the table keeps them.

ghost use Rattle.std.specs.Prelude.{◌≡◌, IfOk};
ghost use Rattle.im_engine_locks.specs.Keys.{spelled, IsSettable};

use crate::short_key::ShortKey;
use std::alloc::{AllocError, Global};

/// The bytes of a key: up to 32 in place.
#[derive(Drop)]
pub enum KeyBytes {
    Short(ShortKey),
    Long(Vec<u8>),
}

impl KeyBytes {
    /// Room for a copy of these bytes, which `set` makes. Memory is wanted where they are more than 32: then they are copied here.
    pub fn room_for(alloc: Global, bytes: &[u8]) -> Result<KeyBytes, AllocError>
        ensures { IfOk result (λ key. IsSettable key bytes.now) }
    {
        if bytes.len() <= 32 {
            return Ok(KeyBytes::Short(ShortKey::empty()));
        }
        Ok(KeyBytes::Long(Vec::from_slice(alloc, bytes)?))
    }

    /// Makes it a copy of the bytes for which it has room.
    pub fn set(&mut self, bytes: &[u8])
        requires { IsSettable self.old bytes.now }
        ensures { spelled self.new ≡ bytes.now }
    {
        if let KeyBytes::Short(key) = self {
            key.set(bytes);
        }
    }

    /// The bytes.
    pub fn as_slice(&self) -> &[u8]
        ensures { result.now ≡ spelled self.now }
    {
        match self {
            KeyBytes::Short(key) => key.as_slice(),
            KeyBytes::Long(bytes) => bytes.as_slice(),
        }
    }
}
