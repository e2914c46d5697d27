ghost use Rattle.std.specs.Prelude.{◌≡◌, ◌≤◌, length, option_map, IfSome, IfOk};
ghost use Rattle.serde_json.specs.View.{view};
ghost use Rattle.channel_book.specs.Calls.{Gives, GivesBy, SpeaksJson};
ghost use Rattle.channel_book.specs.Steps.{or_fault};
ghost use Rattle.channel_book.specs.Paths.{ReadsPart};
ghost use Rattle.channel_book.specs.Shapes.{shape_in};
ghost use Rattle.channel_book.specs.Books.{Reads, shape_or_fault, unless_reserved, unless_repeated, book_of};
ghost use Rattle.channel_book.specs.Answers.{user_among, identifier_of, channel_among, object_of, action_among, subscribed_among, unsubscribed_among};
ghost use Rattle.channel_book.specs.Answers.{performed_among};
ghost use Rattle.channel_book.specs.declared.answers.CallFault.TheVariants as fault;

use crate::answering::{reaction, subscription, termination};
use crate::answers::{Answer, CallFault};
use crate::asking::asked_at;
use crate::callbacks::Callbacks;
use crate::checks::{repeated_in, reserved_in};
use crate::declarations::{Action, Channel, User};
use crate::faults::{BookFault, ShapeFault};
use crate::names::Indexed;
use crate::parts::{here, in_member};
use crate::shapes::{channels_in, text_at, tokens_in};
use cable_base::{MOST_USER, Text};
use cable_json::read_json;
use serde_json::Value;
use std::alloc::Global;
use std::marker::Model;

/// A channel book, seen as what it declares: the users by their tokens, and the channels.
#[derive(Debug, Drop)]
pub struct Book {
    users: Indexed<User>,
    channels: Indexed<Channel>,
}

impl Model for Book {
    ghost use Rattle.channel_book.specs.Shapes.{Declared};

    ghost Value = { Declared };

    ghost view = { λ b. record { users = b.users; channels = b.channels } };
}

/// What a JSON value declares.
fn shape_in(alloc: Global, value: &Value) -> Result<Book, ShapeFault>
    ensures { ReadsPart result (shape_in (view value.now)) }
{
    here(alloc, value.as_object())?;
    let users = in_member(alloc, "tokens", tokens_in(alloc, value.get("tokens")))?;
    let channels = in_member(alloc, "channels", channels_in(alloc, value.get("channels")))?;
    Ok(Book {
        users: Indexed::of(alloc, users)?,
        channels: Indexed::of(alloc, channels)?,
    })
}

fn shape_or_fault(alloc: Global, value: &Value) -> Result<Book, BookFault>
    ensures { Reads result (shape_or_fault (shape_in (view value.now))) }
{
    match shape_in(alloc, value) {
        Ok(book) => Ok(book),
        Err(ShapeFault::Broken { path }) => Err(BookFault::BadShape { path }),
        Err(ShapeFault::OutOfMemory) => Err(BookFault::OutOfMemory),
    }
}

/// The book, unless one of its templates is reserved.
fn unless_reserved(alloc: Global, book: Book) -> Result<Book, BookFault>
    ensures { Reads result (unless_reserved book) }
{
    match reserved_in(book.channels.as_slice()) {
        Some(template) => Err(BookFault::ReservedStream {
            template: Text::new(alloc, template)?,
        }),
        None => Ok(book),
    }
}

/// The book, unless one of its names stood before.
fn unless_repeated(alloc: Global, book: Book) -> Result<Book, BookFault>
    ensures { Reads result (unless_repeated book) }
{
    match repeated_in(&book.channels) {
        Some(name) => Err(BookFault::RepeatedName {
            name: Text::new(alloc, name)?,
        }),
        None => Ok(book),
    }
}

impl Book {
    /// The book of a text, which is one JSON object.
    ///
    /// `tokens` is an object from token to user, a string of at most `MOST_USER` bytes. `channels` is a list of channels. A channel has a
    /// `name`, and lists: `requires` the names that its templates may take up besides `user`, `streams` of templates, `says` of
    /// strings that hold JSON, `enter` and `leave` of objects with a template `to` and a string `payload` that holds JSON, and
    /// `actions`. An action has a `name`, `casts`, a list of templates, `echo`, a truth value, and `streams` and `stops`, lists of
    /// templates. Names aren't empty. All but `channels`, `name`, `to` and `payload` may be missing. Unknown members are passed over.
    ///
    /// The faults are tried in the order of `BookFault`. `BadShape` tells the first place of the walk: the members in the order in
    /// which they stand here, the items of each list in order. The format is this profile's; `docs/BOOK.md` has it whole.
    pub fn read(alloc: Global, text: &str) -> Result<Book, BookFault>
        ensures { Reads result (book_of text.now) }
    {
        let Some(value) = read_json(alloc, text)? else {
            return Err(BookFault::BadJson);
        };
        let book = shape_or_fault(alloc, &value)?;
        let book = unless_reserved(alloc, book)?;
        unless_repeated(alloc, book)
    }

    /// The channels that it declares, in order. It takes no memory.
    pub fn channels(&self) -> &[Channel]
        ensures { result.now ≡ self.now.channels }
    {
        self.channels.as_slice()
    }
}

/// The user of a token.
fn user_among<'a>(users: &'a Indexed<User>, token: &str) -> Option<&'a str>
    ensures user { option_map (λ s. s.now) result ≡ user_among token.now users.now }
    ensures short { IfSome result (λ s. length s.now ≤ MOST_USER) }
{
    match users.get(token) {
        Some(user) => Some(user.as_str()),
        None => None,
    }
}

/// The identifier of a text. `BadIdentifier` where it isn't good.
fn identifier_of(alloc: Global, text: &str) -> Result<Value, CallFault>
    ensures { GivesBy view result (or_fault fault.BadIdentifier (identifier_of text.now)) }
{
    let Some(value) = read_json(alloc, text)? else {
        return Err(CallFault::BadIdentifier);
    };
    if text_at(&value, "channel").is_some() {
        Ok(value)
    } else {
        Err(CallFault::BadIdentifier)
    }
}

/// The channel that an identifier names. `UnknownChannel` where there is none.
fn channel_among<'a>(
    channels: &'a Indexed<Channel>,
    identifier: &Value,
) -> Result<&'a Channel, CallFault>
    ensures { GivesBy (λ c. c.now) result (or_fault fault.UnknownChannel (channel_among channels.now (view identifier.now))) }
{
    let Some(name) = text_at(identifier, "channel") else {
        return Err(CallFault::UnknownChannel);
    };
    match channels.get(name) {
        Some(channel) => Ok(channel),
        None => Err(CallFault::UnknownChannel),
    }
}

/// The JSON object of a text. `BadData` where it is none.
fn object_of(alloc: Global, text: &str) -> Result<Value, CallFault>
    ensures { GivesBy view result (or_fault fault.BadData (object_of text.now)) }
{
    let Some(value) = read_json(alloc, text)? else {
        return Err(CallFault::BadData);
    };
    if value.is_object() {
        Ok(value)
    } else {
        Err(CallFault::BadData)
    }
}

/// The action that a payload asks for. `UnknownAction` where it isn't declared.
fn action_among<'a>(actions: &'a Indexed<Action>, payload: &Value) -> Result<&'a Action, CallFault>
    ensures { GivesBy (λ a. a.now) result (or_fault fault.UnknownAction (action_among actions.now (view payload.now))) }
{
    let Some(name) = asked_at(payload.get("action")) else {
        return Err(CallFault::UnknownAction);
    };
    match actions.get(name) {
        Some(action) => Ok(action),
        None => Err(CallFault::UnknownAction),
    }
}

fn subscribed_among(
    alloc: Global,
    channels: &Indexed<Channel>,
    user: &str,
    text: &str,
) -> Result<Answer, CallFault>
    ensures answer { Gives result (subscribed_among channels.now user.now text.now) }
    ensures json { IfOk result SpeaksJson }
{
    let identifier = identifier_of(alloc, text)?;
    let channel = channel_among(channels, &identifier)?;
    Ok(subscription(alloc, user, &identifier, channel)?)
}

fn unsubscribed_among(
    alloc: Global,
    channels: &Indexed<Channel>,
    user: &str,
    text: &str,
) -> Result<Answer, CallFault>
    ensures answer { Gives result (unsubscribed_among channels.now user.now text.now) }
    ensures json { IfOk result SpeaksJson }
{
    let identifier = identifier_of(alloc, text)?;
    let channel = channel_among(channels, &identifier)?;
    Ok(termination(alloc, user, &identifier, channel)?)
}

#[tactic(auto, using(crate::proofs::Walk::object_reads))]
fn performed_among(
    alloc: Global,
    channels: &Indexed<Channel>,
    user: &str,
    text: &str,
    payload: &str,
) -> Result<Answer, CallFault>
    ensures answer { Gives result (performed_among channels.now user.now text.now payload.now) }
    ensures json { IfOk result SpeaksJson }
{
    let identifier = identifier_of(alloc, text)?;
    let channel = channel_among(channels, &identifier)?;
    let asked = object_of(alloc, payload)?;
    let action = action_among(&channel.rules.actions, &asked)?;
    Ok(reaction(alloc, user, &identifier, channel, payload, action)?)
}

impl Callbacks for Book {
    ghost use Rattle.channel_book.specs.Answers.{callbacks_of};

    ghost answers = { callbacks_of };

    fn identify(&self, token: &str) -> Option<&str> {
        user_among(&self.users, token)
    }

    fn subscribed(&self, alloc: Global, user: &str, identifier: &str) -> Result<Answer, CallFault> {
        subscribed_among(alloc, &self.channels, user, identifier)
    }

    fn unsubscribed(
        &self,
        alloc: Global,
        user: &str,
        identifier: &str,
    ) -> Result<Answer, CallFault> {
        unsubscribed_among(alloc, &self.channels, user, identifier)
    }

    fn perform(
        &self,
        alloc: Global,
        user: &str,
        identifier: &str,
        payload: &str,
    ) -> Result<Answer, CallFault> {
        performed_among(alloc, &self.channels, user, identifier, payload)
    }
}
