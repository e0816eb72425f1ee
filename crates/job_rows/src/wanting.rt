//! Which facts a report of a row wants.

/// Which facts a report wants.
#[derive(Clone, Copy, Debug, PartialEq, Eq)]
pub(crate) enum Wanted {
    Everything,
    Nothing,
    /// The uses of one rule.
    Rule(u8),
}
