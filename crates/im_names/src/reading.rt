//! What the parts of a range say, taken in their order.
ghost use Rattle.std.specs.Prelude.{◌≡◌, ◌≤◌, ◌<◌, ◌+◌, ◌-◌, not, true, length};
ghost use Rattle.im_names.specs.Readings.{found_by, is_next, no_part, part_number, read_on};

/// What a range has of a value.
#[derive(Clone, Copy, Debug, PartialEq, Eq)]
pub enum Found {
    /// No value.
    Nothing,
    /// All parts of one.
    Whole,
    /// Parts that are not all of one value: they are refused.
    Half,
}

/// How far the parts of a value are read.
#[repr(C)]
#[derive(Clone, Copy, Debug, PartialEq, Eq)]
pub struct Reading {
    /// How many bytes of the value are left, after the parts that were taken.
    pub left: u64,
    /// How many parts were taken: the number of the next one.
    pub number: u32,
    /// One was not the next part.
    pub is_half: bool,
}

// A part's number, after a front of so many bytes.
#[tactic(auto, unfolding(crate::specs::Readings::part_number))]
fn number_in(front: usize, key: &[u8]) -> u32
    requires { front + 3 ≤ length key.now }
    ensures number { result ≡ part_number front key.now }
    ensures small { result < 16777216 }
{
    key[front] as u32 * 65536 + key[front + 1] as u32 * 256 + key[front + 2] as u32
}

impl Reading {
    /// Before the first part.
    pub fn begin() -> Reading
        ensures { result ≡ no_part }
    {
        Reading {
            left: 0,
            number: 0,
            is_half: false,
        }
    }

    // Whether an entry is the next part.
    fn goes_on(&self, front: usize, key: &[u8], rid: u64) -> bool
        ensures next { result ≡ is_next front self.now (key.now, rid) }
        ensures room { result ≡ true → front + 3 ≤ length key.now }
        ensures left { result ≡ true → length key.now - (front + 3) ≤ rid }
        ensures number { result ≡ true → self.now.number < 16777216 }
    {
        if self.is_half || key.len() < 3 || key.len() - 3 < front {
            return false;
        }
        number_in(front, key) == self.number
            && (self.number == 0 || rid == self.left)
            && (key.len() - (front + 3)) as u64 <= rid
    }

    /// Takes the next entry of a range: its key, whose front has so many bytes, and its row id. False where it is not
    /// the value's next part; what was found is then half a value, whatever follows. The part's bytes are those of
    /// the key after the front and three bytes more.
    pub fn take(&mut self, front: usize, key: &[u8], rid: u64) -> bool
        ensures reading { self.new ≡ read_on front self.old (key.now, rid) }
        ensures next { result ≡ not self.new.is_half }
    {
        if !self.goes_on(front, key, rid) {
            self.is_half = true;
            return false;
        }
        self.left = rid - (key.len() - (front + 3)) as u64;
        self.number += 1;
        true
    }

    /// What was found, where no more entries follow.
    pub fn found(&self) -> Found
        ensures { result ≡ found_by self.now }
    {
        if self.is_half {
            Found::Half
        } else if self.number == 0 {
            Found::Nothing
        } else if self.left == 0 {
            Found::Whole
        } else {
            Found::Half
        }
    }
}
