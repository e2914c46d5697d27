//! The handshake of a WebSocket (RFC 6455, section 4) as a stage of a session: it goes on when bytes come, and never waits for them.
//!
//! It stands above `cable_link`, so that what needs a link alone doesn't stand on http and the rules of admission.
#![tactic(auto)]

mod answering;
mod answers;
mod hearing;
mod replies;
mod requests;
mod rulings;
mod shaking;

pub use replies::{Failure, Reply, reply_to_head};
pub use shaking::{Shake, Shaken};
