//! Keys.

ghost use Rattle.std.specs.Prelude.{◌≡◌, ◌⊎◌, ◌≤◌, ◌↔◌, ◌+◌, ◌++◌, ◌∷◌, [], length, vec_len, vec_capacity, IfOk, IfErr, OnOk, OnErr, Result, Ok, Err, IsOk};
ghost use Rattle.im_base_types.specs.declared.fault.Fault.TheVariants.{KeyLength, Memory};

use crate::Rid;
use crate::fault::Fault;
use crate::sizes::LONGEST_KEY;
use arrayvec::ArrayVec;
use std::marker::Model;

/// A key: 1 to 255 bytes, in place. Contracts see it as the list of its bytes.
#[derive(Drop)]
pub struct Key {
    bytes: ArrayVec<u8, LONGEST_KEY>,
}

impl Model for Key {
    ghost use Rattle.std.specs.Prelude.{ℕ, List, length, ◌≤◌};

    ghost Value = { List ℕ };

    ghost view = { λ key. key.bytes.items };

    ghost invariant = { λ key. (1 ≤ length key.bytes.items) × (length key.bytes.items ≤ 255) };
}

impl Key {
    /// The key of these bytes. Refused `KeyLength` where there are none, or more than 255.
    pub fn new(bytes: &[u8]) -> Result<Key, Fault>
        ensures key { IfOk result (λ key. key ≡ bytes.now) }
        ensures taken { IsOk result ↔ ((1 ≤ length bytes.now) × (length bytes.now ≤ 255)) }
        ensures refused { IfErr result (λ e. e ≡ KeyLength) }
    {
        if bytes.is_empty() || bytes.len() > LONGEST_KEY {
            return Err(Fault::KeyLength);
        }
        let mut key = ArrayVec::new();
        let _ = key.try_extend_from_slice(bytes);
        Ok(Key { bytes: key })
    }

    /// Its bytes.
    pub fn bytes(&self) -> &[u8]
        ensures bytes { result.now ≡ self.now }
        ensures some { 1 ≤ length result.now }
        ensures short { length result.now ≤ 255 }
    {
        self.bytes.as_slice()
    }

    // A key of one byte.
    fn of_byte(byte: u8) -> Key
        ensures { result ≡ byte ∷ [] }
    {
        let mut bytes = ArrayVec::new();
        bytes.push(byte);
        Key { bytes }
    }

    // Adds bytes after those that it has.
    fn extend(&mut self, more: &[u8])
        requires { length self.old + length more.now ≤ 255 }
        ensures { self.new ≡ self.old ++ more.now }
    {
        let _ = self.bytes.try_extend_from_slice(more);
    }
}

/// Adds a key, with what stands with it, to the end of a list. The key is made in its place there: it takes 255 bytes however short it is, so that
/// to make it first and to move it then would cost most of the time. Refused `KeyLength` where the key has no byte, or more than 255, and
/// `Memory`, where the list has no room for one entry more; the list then stays as it was.
pub fn push_entry(list: &mut Vec<(Key, Rid)>, key: &[u8], rid: Rid) -> Result<(), Fault>
    ensures added { OnOk result (list.new.items ≡ list.old.items ++ (key.now, rid) ∷ []) }
    ensures same { OnErr result (list.new.items ≡ list.old.items) }
    ensures length { result ≡ Err KeyLength ↔ (length key.now ≡ 0) ⊎ (256 ≤ length key.now) }
    ensures causes { IfErr result (λ e. (e ≡ KeyLength) ⊎ (e ≡ Memory)) }
    ensures full { result ≡ Err Memory → vec_capacity list.old ≤ vec_len list.old }
{
    if key.is_empty() || key.len() > LONGEST_KEY {
        return Err(Fault::KeyLength);
    }
    let Ok(entry) = list.push_mut((Key::of_byte(key[0]), rid)) else {
        return Err(Fault::Memory);
    };
    entry.0.extend(&key[1..]);
    Ok(())
}
