use ws_gate::{Admission, Denial};

/// What the rules made of a request.
#[derive(Drop)]
pub(crate) enum Ruling {
    /// It is let in, and answered by these bytes.
    LetIn(Admission, Vec<u8>),
    /// It is denied.
    KeptOut(Denial),
}
