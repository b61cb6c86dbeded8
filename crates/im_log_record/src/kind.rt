//! The kinds of records, and their numbers.
ghost use Rattle.std.specs.Prelude.{◌≡◌};
ghost use Rattle.im_log_record.specs.Kind.{number_of, kind_at};

/// The kind of a record.
#[derive(Clone, Copy, Debug, PartialEq, Eq)]
pub enum Kind {
    InsertKey,
    DeleteKey,
    UndoInsert,
    UndoDelete,
    Smo,
    UndoSmo,
    DummyClr,
    Commit,
    End,
    Image,
    Checkpoint,
}

impl Kind {
    /// The byte that stands for the kind.
    #[inline]
    pub fn number(self) -> u8
        ensures { result ≡ number_of self }
    {
        match self {
            Kind::InsertKey => 1,
            Kind::DeleteKey => 2,
            Kind::UndoInsert => 3,
            Kind::UndoDelete => 4,
            Kind::Smo => 5,
            Kind::UndoSmo => 6,
            Kind::DummyClr => 7,
            Kind::Commit => 8,
            Kind::End => 9,
            Kind::Image => 10,
            Kind::Checkpoint => 11,
        }
    }

    /// The kind that a byte stands for.
    #[inline]
    pub fn from_number(number: u8) -> Option<Kind>
        ensures { result ≡ kind_at number }
    {
        match number {
            1 => Some(Kind::InsertKey),
            2 => Some(Kind::DeleteKey),
            3 => Some(Kind::UndoInsert),
            4 => Some(Kind::UndoDelete),
            5 => Some(Kind::Smo),
            6 => Some(Kind::UndoSmo),
            7 => Some(Kind::DummyClr),
            8 => Some(Kind::Commit),
            9 => Some(Kind::End),
            10 => Some(Kind::Image),
            11 => Some(Kind::Checkpoint),
            _ => None,
        }
    }
}
