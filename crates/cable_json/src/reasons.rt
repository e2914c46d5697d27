/// Why the server ends a connection.
#[derive(Clone, Copy, Debug, PartialEq, Eq)]
pub enum Reason {
    /// The token is unknown.
    Unauthorized,
    /// The request isn't one of this server's.
    InvalidRequest,
    /// The server stops.
    ServerRestart,
    /// The application ends the user's connections.
    Remote,
}

impl Reason {
    ghost use Rattle.std.specs.Prelude.{◌≡◌};
    ghost use Rattle.cable_json.specs.Texts.{reason_word};

    /// The word that stands for the reason in a text.
    pub fn word(self) -> &'static str
        ensures { result.now ≡ reason_word self }
    {
        match self {
            Reason::Unauthorized => "unauthorized",
            Reason::InvalidRequest => "invalid_request",
            Reason::ServerRestart => "server_restart",
            Reason::Remote => "remote",
        }
    }
}
