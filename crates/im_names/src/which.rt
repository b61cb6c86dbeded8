//! Which key is asked for?
ghost use Rattle.std.specs.Prelude.{◌≡◌};
ghost use Rattle.im_names.specs.Asked.{which_at};

/// A key, or an end of a range.
#[derive(Clone, Copy, Debug, PartialEq, Eq)]
pub enum Which {
    /// That of a name in the catalogue.
    Row,
    /// What lies above all keys of a name; of no name, above the catalogue.
    Guard,
    /// That of an entry of an index.
    Entry,
    /// Where the entries begin whose keys begin with these bytes; of no name, the rows of the catalogue.
    First,
    /// Where they end.
    Last,
    /// What all parts of a long value begin with.
    Front,
    /// Where they end.
    End,
}

impl Which {
    /// By its number, as C has it.
    pub fn from_number(number: u32) -> Option<Which>
        ensures { result ≡ which_at number }
    {
        match number {
            0 => Some(Which::Row),
            1 => Some(Which::Guard),
            2 => Some(Which::Entry),
            3 => Some(Which::First),
            4 => Some(Which::Last),
            5 => Some(Which::Front),
            6 => Some(Which::End),
            _ => None,
        }
    }
}
