//! The commands that clients send, and the texts that the server sends: the subprotocol `actioncable-v1-json`.
#![tactic(auto)]

mod commands;
mod laws;
mod reading;
mod reasons;
mod texts;

pub use commands::{Command, CommandFault};
pub use laws::{commands_are_what_texts_say, disconnects_are_what_payloads_say, texts_read_back};
pub use reading::{read_command, read_json, remote};
pub use reasons::Reason;
pub use texts::{confirm, disconnect, message, ping, reject, welcome};
