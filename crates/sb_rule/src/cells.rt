// What a pattern consists of.

/// A cell of a pattern.
#[derive(Clone, Copy, Debug, PartialEq, Eq)]
pub enum Cell {
    /// This unit, in either case if it is an ASCII letter.
    Lit(u16),
    /// Any one unit, written `?`.
    One,
    /// Any run of units, also none, written `*`.
    Any,
}
