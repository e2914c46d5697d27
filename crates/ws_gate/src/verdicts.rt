use cable_base::{Listed, OutOfMemory, Text};

/// What a request must keep to be admitted.
#[derive(Debug, Drop)]
pub struct Rules {
    /// The path at which the server listens. It is compared as it stands: nothing is decoded, and the case counts.
    pub path: Text,
    /// The origins (RFC 6454) from which requests are let in, each as a browser writes it. Where there are none, each request is let in.
    pub origins: Listed<Text>,
}

/// A subprotocol that Action Cable's clients list.
#[derive(Clone, Copy, Debug, PartialEq, Eq)]
pub enum Protocol {
    /// `actioncable-v1-json`.
    V1,
    /// `actioncable-unsupported`, which a client lists to be told that it speaks no protocol of the server.
    Unsupported,
}

/// What an admitted request carries.
#[derive(Debug, PartialEq, Eq, Drop)]
pub struct Admission {
    /// What stands behind the first `token=` of the query, undecoded, or nothing.
    pub token: Text,
    /// The protocol to speak, where the request lists one that is known.
    pub protocol: Option<Protocol>,
}

/// Why a request is denied, in the order in which the rules are tried.
#[derive(Clone, Copy, Debug, PartialEq, Eq)]
pub enum Denial {
    /// The method isn't GET.
    WrongMethod,
    /// The path isn't that of the rules.
    WrongPath,
    /// The rules name origins, and the request has none or another.
    ForeignOrigin,
    OutOfMemory,
}

impl From<OutOfMemory> for Denial {
    ghost use Rattle.std.specs.Prelude.{◌≡◌};
    ghost use Rattle.ws_gate.specs.declared.verdicts.Denial.TheVariants as because;

    ghost from_gives = { λ _ e. e ≡ because.OutOfMemory };

    fn from(_e: OutOfMemory) -> Denial {
        Denial::OutOfMemory
    }
}
