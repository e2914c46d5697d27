use cable_base::ConnNo;

/// A book with the token `t1` of ann, and one channel with one stream.
pub const CLUB: &str = r#"{"tokens":{"t1":"ann"},"channels":[{"name":"Club","streams":["club"]}]}"#;

/// The identifier of a subscription to the channel of the book.
pub const IDENTIFIER: &str = r#"{"channel":"Club"}"#;

/// What a client sends that subscribes to the channel.
pub const SUBSCRIBE: &str = r#"{"command":"subscribe","identifier":"{\"channel\":\"Club\"}"}"#;

/// What the client is told once its subscription stands.
pub const CONFIRMED: &str =
    r#"{"identifier":"{\"channel\":\"Club\"}","type":"confirm_subscription"}"#;

/// A connection of ann.
pub const ANN: ConnNo = ConnNo(3);
