use cable_base::OutOfMemory;

/// Why a line of a session script stands for nothing, in the order in which the rules are tried.
#[derive(Clone, Copy, Debug, PartialEq, Eq)]
pub enum LineFault {
    /// The line isn't UTF-8.
    NotUtf8,
    /// The bytes up to the first blank, or all where there is none, are no verb.
    UnknownVerb,
    /// There are too few or too many words, or one is empty. The text of `in` may be empty.
    BadWords,
    /// A number isn't spelled in decimal digits without a leading zero, or lies out of its range.
    BadNumber,
    /// The JSON of a cast isn't read by `serde_json`.
    BadJson,
    /// The name of a cast has over `MOST_NAME` bytes, or its payload without white space over `MOST_PAYLOAD`.
    TooLarge,
    OutOfMemory,
}

impl From<OutOfMemory> for LineFault {
    ghost use Rattle.std.specs.Prelude.{◌≡◌};
    ghost use Rattle.cable_script.specs.declared.faults.LineFault.TheVariants as fault;

    ghost from_gives = { λ _ e. e ≡ fault.OutOfMemory };

    fn from(_e: OutOfMemory) -> LineFault {
        LineFault::OutOfMemory
    }
}
