ghost use Rattle.std.specs.Prelude.{◌≡◌, ◌≤◌, length};

use crate::jsons::JsonText;
use crate::names::{Indexed, Named};
use crate::templates::Template;
use cable_base::{Listed, MOST_USER, Text};
use std::marker::Model;

/// A user's token and text, which has at most `MOST_USER` bytes.
#[derive(Debug, Drop)]
pub struct User {
    pub token: Text,
    pub text: Text,
}

impl Model for User {
    ghost use Rattle.std.specs.Prelude.{List, ℕ, ◌≤◌, length};
    ghost use Rattle.cable_base.specs.declared.limits.TheConstants.{MOST_USER};

    ghost Value = { List ℕ × List ℕ };

    ghost view = { λ u. (u.token, u.text) };

    ghost invariant = { λ u. length u.text ≤ MOST_USER };
}

impl User {
    pub fn as_str(&self) -> &str
        ensures text { result.now ≡ self.now.1 }
        ensures short { length result.now ≤ MOST_USER }
    {
        self.text.as_str()
    }
}

impl Named for User {
    ghost name_of = { λ u. u.0 };

    fn name(&self) -> &str {
        self.token.as_str()
    }
}

/// A broadcast that a channel makes at the beginning or the end of a subscription.
#[derive(Debug, Drop)]
pub struct CastRule {
    pub to: Template,
    pub payload: JsonText,
}

/// What a client's message may ask of a channel.
#[derive(Debug, Drop)]
pub struct Action {
    pub name: Text,
    pub casts: Listed<Template>,
    pub echo: bool,
    pub streams: Listed<Template>,
    pub stops: Listed<Template>,
}

impl Named for Action {
    ghost name_of = { λ a. a.name };

    fn name(&self) -> &str {
        self.name.as_str()
    }
}

/// What happens on a channel.
#[derive(Debug, Drop)]
pub struct Rules {
    pub streams: Listed<Template>,
    pub says: Listed<JsonText>,
    pub enter: Listed<CastRule>,
    pub leave: Listed<CastRule>,
    pub actions: Indexed<Action>,
}

/// A channel of a book.
#[derive(Debug, Drop)]
pub struct Channel {
    pub name: Text,
    /// The members of an identifier that templates take up.
    pub required: Indexed<Text>,
    pub rules: Rules,
}

impl Named for Channel {
    ghost name_of = { λ c. c.name };

    fn name(&self) -> &str {
        self.name.as_str()
    }
}
