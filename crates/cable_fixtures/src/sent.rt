use crate::pieces::subscribe;
use cable_base::{Millis, Name, OutOfMemory, Row, RowId, SubNo, Text, WantNo};
use cable_json::{Command, CommandFault};
use cable_model::Piece;
use std::alloc::Global;

pub const CHAT: &str = r#"{"channel":"Chat"}"#;

/// A piece to put.
#[derive(Clone, Copy)]
pub enum Sent {
    Faulty,
    Subscribe,
    /// A message with this payload to the subscription.
    Message(&'static str),
    /// A row for this want of this subscription.
    Row(u64, u64),
    Confirm(u64),
    Remote,
    Gone,
    Restart,
}

/// A client's text that isn't JSON.
pub fn faulty() -> Piece {
    Piece::Cmd {
        read: Err(CommandFault::BadJson),
    }
}

/// A row for a want of a subscription.
fn row(alloc: Global, sub: u64, want: u64) -> Result<Piece, OutOfMemory> {
    Ok(Piece::Row {
        sub: SubNo(sub),
        want: WantNo(want),
        row: Row {
            id: RowId(want),
            channel: Name::new(alloc, "a")?,
            payload: Text::new(alloc, "{}")?,
            created_at: Millis(5),
        },
    })
}

fn message(alloc: Global, payload: &str) -> Result<Piece, OutOfMemory> {
    Ok(Piece::Cmd {
        read: Ok(Command::Message {
            identifier: Text::new(alloc, CHAT)?,
            payload: Text::new(alloc, payload)?,
        }),
    })
}

/// The piece itself.
pub fn piece(alloc: Global, sent: Sent) -> Result<Piece, OutOfMemory> {
    match sent {
        Sent::Faulty => Ok(faulty()),
        Sent::Subscribe => subscribe(alloc, CHAT),
        Sent::Message(payload) => message(alloc, payload),
        Sent::Row(sub, want) => row(alloc, sub, want),
        Sent::Confirm(sub) => Ok(Piece::Confirm { sub: SubNo(sub) }),
        Sent::Remote => Ok(Piece::Remote { reconnect: true }),
        Sent::Gone => Ok(Piece::Gone),
        Sent::Restart => Ok(Piece::Restart),
    }
}
