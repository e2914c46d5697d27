use cable_base::{Name, RowId, WantNo};

/// A stream of a subscription.
#[derive(Debug, PartialEq, Eq, Drop)]
pub struct StreamEntry {
    pub name: Name,
    /// The number under which it was wanted.
    pub want: WantNo,
    /// It gets the rows above this one. Nothing where it isn't held yet.
    pub mark: Option<RowId>,
}
