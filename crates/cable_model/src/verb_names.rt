/// The first word of a line of a session script, by which its kind is known.
#[derive(Clone, Copy, Debug, PartialEq, Eq)]
pub enum VerbName {
    Boot,
    Open,
    In,
    Drop,
    Stop,
    Take,
    Put,
    Finish,
    Work,
    Cast,
    Trim,
    Ask,
    Read,
    Deliver,
    Poll,
    Beat,
    Fault,
}
