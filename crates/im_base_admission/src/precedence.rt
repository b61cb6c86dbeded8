//! Who goes before all others.

/// How often a transaction gives way before nobody begins before it.
pub const FEW: u64 = 4;

/// Who is first: nobody begins before it.
#[derive(Clone, Copy, Debug, PartialEq, Eq)]
pub enum Precedence {
    Nobody,
    /// The one that asks.
    Asker,
    Another,
}
