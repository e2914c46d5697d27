use cable_base::Text;
use cable_model::Note;

/// What is queued on a connection.
#[derive(Debug, PartialEq, Eq, Drop)]
pub enum Out {
    /// A text for its client.
    Text(Text),
    /// A note, which stands in the transcript and is never sent.
    Note(Note),
}
