//! Which requests of a WebSocket handshake (RFC 6455, section 4) are admitted, and with what.
//!
//! A request asks for the server's path by GET. Where the server names origins, it comes from one of them. Its query carries the token
//! that tells whose connection it will be, as `?token=..`, which the Rails guide "Action Cable Overview" has for clients without cookies.
//! And it lists the subprotocols that the client would speak. What else RFC 6455 asks of a handshake is the transport's.
#![tactic(auto)]

mod admitting;
mod headers;
mod laws;
mod origins;
mod protocols;
mod tokens;
mod verdicts;

pub use admitting::admit;
pub use laws::handshakes_are_told_apart;
pub use verdicts::{Admission, Denial, Protocol, Rules};
