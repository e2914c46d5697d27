//! The limits of a session, of its table, of a channel book and of a script. Each stands here once: code and definitions cite it. Where
//! nothing else is said, the rule is one of this profile of the protocol, in `docs/PROTOCOL.md`.

/// The most bytes of a client's text. A longer one is noted as too long.
pub const MOST_TEXT: usize = 65_536;

/// The most commands that wait on a connection. One that comes when so many wait is noted, as the connection is busy.
pub const MOST_WAITING: u64 = 256;

/// The most live connections of a node.
pub const MOST_CONNECTIONS: u64 = 1_000;

/// The most subscriptions of a connection.
pub const MOST_SUBSCRIPTIONS: usize = 100;

/// The most different streams of a subscription.
pub const MOST_STREAMS: usize = 100;

/// The most bytes of a stream's name that callbacks hold or cast to, or that an application casts to.
pub const MOST_NAME: usize = 1_024;

/// The most bytes of a payload that is broadcast, without its white space.
pub const MOST_PAYLOAD: usize = 1_048_576;

/// The most bytes of a user. The rule is the book's, in `docs/BOOK.md`.
pub const MOST_USER: usize = 1_000;

/// The greatest id that a row can have. The rule is the databases': an id is a signed number of 64 bits.
pub const MOST_ID: u64 = (1 << 63) - 1;

/// The most rows that a read of a turn fetches.
pub const PAGE_ROWS: u64 = 1_000;

/// The first number of milliseconds that is no moment and no span: 2^53, below which each whole number is exact as a float of 64 bits.
pub const MOMENT_LIMIT: u64 = 1 << 53;

/// The last moment, and the longest span, in milliseconds.
pub const LAST_MOMENT: u64 = MOMENT_LIMIT - 1;

/// The greatest number of a node, which counts from 1.
pub const LAST_NODE: u64 = 8;

/// The greatest number of a connection in a script, which counts from 1.
pub const LAST_CONN: u64 = 999_999_999;

/// The most rows that a script's trim takes.
pub const MOST_BATCH: u64 = 1_000;

/// The most broadcasts that a script's `work` commits.
pub const MOST_PUTS: u64 = 1_000;

/// The most bytes of a script's line, without its line feed.
pub const MOST_LINE: usize = 1_200_000;

/// The most bytes of a script: 2^40.
pub const MOST_SCRIPT: usize = 1 << 40;
