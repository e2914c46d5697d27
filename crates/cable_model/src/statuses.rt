ghost use Rattle.std.specs.Prelude.{◌≡◌, IfOk};
ghost use Rattle.cable_model.specs.declared.statuses.Status.TheVariants as status;
ghost use Rattle.cable_model.specs.Statuses.{code_of, reason_text, text_of};

use cable_base::{Copied, OutOfMemory, Text};
use channel_book::BookFault;
use std::alloc::{AllocError, Global};

/// Which rule a line of a session script is the first to break. The rules are tried in this order, the first two at their own lines alone.
#[derive(Clone, Copy, Debug, PartialEq, Eq)]
pub enum BreakReason {
    /// The first line isn't `cable-script 1`, or there are no bytes at all.
    NoHeader,
    /// The second line doesn't begin with `book ` and its blank, or the bytes end behind the first line.
    NoBook,
    /// The line isn't UTF-8. It comes before the two above where there is such a line.
    NotUtf8,
    /// The bytes up to the first blank, or all where there is none, are no verb.
    UnknownVerb,
    /// There are too few or too many words, or one is empty. The text of `in` may be empty.
    BadWords,
    /// A number isn't spelled in decimal digits without a leading zero, or lies out of its range.
    BadNumber,
    /// The JSON of a cast isn't read by `serde_json`.
    BadJson,
    /// The name of a cast has over `MOST_NAME` bytes, or its payload without white space over `MOST_PAYLOAD`.
    TooLarge,
}

impl BreakReason {
    /// Its words in a status text.
    fn text(&self) -> &'static str
        ensures { result.now ≡ reason_text self.now }
    {
        match self {
            BreakReason::NoHeader => "no-header",
            BreakReason::NoBook => "no-book",
            BreakReason::NotUtf8 => "not-utf8",
            BreakReason::UnknownVerb => "unknown-verb",
            BreakReason::BadWords => "bad-words",
            BreakReason::BadNumber => "bad-number",
            BreakReason::BadJson => "bad-json",
            BreakReason::TooLarge => "too-large",
        }
    }
}

/// How a program ends.
#[derive(Debug, PartialEq, Eq, Drop)]
pub enum Status {
    Ok,
    /// The command line is faulty.
    Usage,
    /// This line, counted from 1, is the first that breaks the format of a script, for this reason.
    BadScript { line: u64, reason: BreakReason },
    /// The second line is a line of a book, and its text is refused.
    BadBook { fault: BookFault },
    /// The script ends within a line: its last bytes have no line feed.
    Unended,
    /// This line, counted from 1, is the first with over `MOST_LINE` bytes.
    TooLong { line: u64 },
    /// The source failed.
    ReadFault,
    /// The sink failed.
    WriteFault,
    /// Memory was wanted and not to be had.
    OutOfMemory,
    /// The store of the rows failed.
    StoreFault,
    /// A socket, or what accepts them, failed.
    NetFault,
    /// The source gave over `MOST_SCRIPT` bytes.
    TooMuch,
}

impl Status {
    /// An equal status of its own.
    pub fn copy(&self, alloc: Global) -> Result<Status, OutOfMemory>
        ensures { IfOk result (λ s. s ≡ self.now) }
    {
        Ok(match self {
            Status::Ok => Status::Ok,
            Status::Usage => Status::Usage,
            Status::BadScript { line, reason } => Status::BadScript {
                line: *line,
                reason: *reason,
            },
            Status::BadBook { fault } => Status::BadBook {
                fault: copy_of_fault(alloc, fault)?,
            },
            Status::Unended => Status::Unended,
            Status::TooLong { line } => Status::TooLong { line: *line },
            Status::ReadFault => Status::ReadFault,
            Status::WriteFault => Status::WriteFault,
            Status::OutOfMemory => Status::OutOfMemory,
            Status::StoreFault => Status::StoreFault,
            Status::NetFault => Status::NetFault,
            Status::TooMuch => Status::TooMuch,
        })
    }

    /// The code with which the program ends.
    pub fn code(&self) -> u8
        ensures { result ≡ code_of self.now }
    {
        match self {
            Status::Ok => 0,
            Status::Usage => 2,
            Status::BadScript { .. } => 3,
            Status::BadBook { .. } => 4,
            Status::Unended => 5,
            Status::TooLong { .. } => 6,
            Status::ReadFault => 7,
            Status::WriteFault => 8,
            Status::OutOfMemory => 9,
            Status::StoreFault => 10,
            Status::NetFault => 11,
            Status::TooMuch => 12,
        }
    }

    /// What a program prints of a refusal, behind its name: the kind, and of a break its line, counted from 1, with the reason, or the fault
    /// of the book. Of `Ok` it is empty.
    pub fn text(&self, alloc: Global) -> Result<Text, OutOfMemory>
        ensures { IfOk result (λ t. t ≡ text_of self.now) }
    {
        match self {
            Status::Ok => Text::new(alloc, ""),
            Status::Usage => Text::new(alloc, "usage"),
            Status::BadScript { line, reason } => bad_script_text(alloc, *line, *reason),
            Status::BadBook { fault } => bad_book_text(alloc, fault),
            Status::Unended => Text::new(alloc, "unended"),
            Status::TooLong { line } => Text::of(format!(in alloc; "too-long line {}", line)?),
            Status::ReadFault => Text::new(alloc, "read-fault"),
            Status::WriteFault => Text::new(alloc, "write-fault"),
            Status::OutOfMemory => Text::new(alloc, "out-of-memory"),
            Status::StoreFault => Text::new(alloc, "store-fault"),
            Status::NetFault => Text::new(alloc, "net-fault"),
            Status::TooMuch => Text::new(alloc, "too-much"),
        }
    }
}

impl From<OutOfMemory> for Status {
    ghost use Rattle.std.specs.Prelude.{◌≡◌};
    ghost use Rattle.cable_model.specs.declared.statuses.Status.TheVariants as status;

    ghost from_gives = { λ _ e. e ≡ status.OutOfMemory };

    fn from(_e: OutOfMemory) -> Status {
        Status::OutOfMemory
    }
}

impl From<AllocError> for Status {
    ghost use Rattle.std.specs.Prelude.{◌≡◌};
    ghost use Rattle.cable_model.specs.declared.statuses.Status.TheVariants as status;

    ghost from_gives = { λ _ e. e ≡ status.OutOfMemory };

    fn from(_e: AllocError) -> Status {
        Status::OutOfMemory
    }
}

impl Copied for Status {
    fn copied(&self, alloc: Global) -> Result<Status, OutOfMemory> {
        self.copy(alloc)
    }
}

fn copy_of_fault(alloc: Global, fault: &BookFault) -> Result<BookFault, OutOfMemory>
    ensures { IfOk result (λ f. f ≡ fault.now) }
{
    Ok(match fault {
        BookFault::BadJson => BookFault::BadJson,
        BookFault::BadShape { path } => BookFault::BadShape {
            path: path.copy(alloc)?,
        },
        BookFault::ReservedStream { template } => BookFault::ReservedStream {
            template: template.copy(alloc)?,
        },
        BookFault::RepeatedName { name } => BookFault::RepeatedName {
            name: name.copy(alloc)?,
        },
        BookFault::OutOfMemory => BookFault::OutOfMemory,
    })
}

/// What is printed of a line that is refused.
fn bad_script_text(alloc: Global, line: u64, reason: BreakReason) -> Result<Text, OutOfMemory>
    ensures { IfOk result (λ t. t ≡ text_of (status.BadScript line reason)) }
{
    let reason = reason.text();
    let text = format!(in alloc; "bad-script line {} {}", line, reason)?;
    Text::of(text)
}

/// What is printed of a book that is refused.
fn bad_book_text(alloc: Global, fault: &BookFault) -> Result<Text, OutOfMemory>
    ensures { IfOk result (λ t. t ≡ text_of (status.BadBook fault.now)) }
{
    match fault {
        BookFault::BadJson => Text::new(alloc, "bad-book bad-json"),
        BookFault::BadShape { path } => {
            let path = path.as_str();
            Text::of(format!(in alloc; "bad-book bad-shape {}", path)?)
        }
        BookFault::ReservedStream { .. } => Text::new(alloc, "bad-book reserved-stream"),
        BookFault::RepeatedName { .. } => Text::new(alloc, "bad-book repeated-name"),
        BookFault::OutOfMemory => Text::new(alloc, "bad-book out-of-memory"),
    }
}
