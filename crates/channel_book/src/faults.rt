use cable_base::{OutOfMemory, Text};

/// Why a part of a book isn't read.
#[derive(Debug, Drop)]
pub enum ShapeFault {
    /// It breaks the format at the place with this path, counted from the part.
    Broken { path: Text },
    OutOfMemory,
}

impl From<OutOfMemory> for ShapeFault {
    ghost use Rattle.std.specs.Prelude.{◌≡◌};
    ghost use Rattle.channel_book.specs.declared.faults.ShapeFault.TheVariants as fault;

    ghost from_gives = { λ _ e. e ≡ fault.OutOfMemory };

    fn from(_e: OutOfMemory) -> ShapeFault {
        ShapeFault::OutOfMemory
    }
}

/// Why a text is no channel book. The first of these that holds is answered.
#[derive(Debug, PartialEq, Eq, Drop)]
pub enum BookFault {
    /// The text isn't read as JSON (RFC 8259, at most 127 nested arrays and objects).
    BadJson,
    /// This is the path of the first place that breaks the book's format, such as `/channels/0/name`. The book's own path is empty.
    BadShape { path: Text },
    /// This is the first template that begins with `action_cable/`.
    ReservedStream { template: Text },
    /// This is the first name of a channel that stood before, or of an action that stood before in its channel.
    RepeatedName { name: Text },
    OutOfMemory,
}

impl From<OutOfMemory> for BookFault {
    ghost use Rattle.std.specs.Prelude.{◌≡◌};
    ghost use Rattle.channel_book.specs.declared.faults.BookFault.TheVariants as fault;

    ghost from_gives = { λ _ e. e ≡ fault.OutOfMemory };

    fn from(_e: OutOfMemory) -> BookFault {
        BookFault::OutOfMemory
    }
}
