ghost use Rattle.std.specs.Prelude.{◌≡◌, ◌≤◌, [], length, option_map, option_and_then, IfOk};
ghost use Rattle.std.specs.List.{list_any};
ghost use Rattle.serde_json.specs.Find.{get, as_str};
ghost use Rattle.serde_json.specs.View.{view, items_view, members_view};
ghost use Rattle.channel_book.specs.Paths.{ReadsPart, here, within, each, list_of};
ghost use Rattle.channel_book.specs.Json.{text_at, json_text};
ghost use Rattle.channel_book.specs.Templates.{opens, template_of};
ghost use Rattle.channel_book.specs.Shapes.{user_in, users_in, tokens_in, template_in, json_in, cast_in, name_in, flag_in, is_requirable};
ghost use Rattle.channel_book.specs.Shapes.{required_in, names_in, distinct_names, requires_in, action_in, rules_in, channel_in, channels_in};

use crate::declarations::{Action, CastRule, Channel, Rules, User};
use crate::faults::ShapeFault;
use crate::jsons::JsonText;
use crate::names::Indexed;
use crate::parts::{Part, broken, each, here, in_member, list_of};
use crate::templates::{Template, has_close, template_of};
use cable_base::{Listed, MOST_USER, Text};
use serde_json::{Map, Value};
use std::alloc::Global;

/// The string at a name, of an object that has one there.
pub fn text_at<'a>(value: &'a Value, name: &str) -> Option<&'a str>
    ensures { option_map (λ s. s.now) result ≡ text_at name.now (view value.now) }
{
    value.get(name).and_then(Value::as_str)
}

fn user_in(alloc: Global, token: &str, value: &Value) -> Result<User, ShapeFault>
    ensures { ReadsPart result (user_in token.now (view value.now)) }
{
    let text = here(alloc, value.as_str())?;
    if text.len() <= MOST_USER {
        Ok(User {
            token: Text::new(alloc, token)?,
            text: Text::new(alloc, text)?,
        })
    } else {
        broken(alloc)
    }
}

fn users_in(alloc: Global, members: &Map<String, Value>) -> Result<Listed<User>, ShapeFault>
    ensures { ReadsPart result (users_in (members_view members.now.entries)) }
{
    let mut users = Listed::empty(alloc);
    for (token, value) in members {
        let user = user_in(alloc, token, value)?;
        users.push(user)?;
    }
    Ok(users)
}

/// The users by their tokens, an object that may be missing.
#[tactic(auto, unfolding(crate::specs::Shapes::tokens_in))]
pub fn tokens_in(alloc: Global, tokens: Option<&Value>) -> Result<Listed<User>, ShapeFault>
    ensures { ReadsPart result (tokens_in (option_map (λ v. view v.now) tokens.entry)) }
{
    let Some(tokens) = tokens else {
        return Ok(Listed::empty(alloc));
    };
    let members = here(alloc, tokens.as_object())?;
    users_in(alloc, members)
}

/// The template of a string that is there.
fn template_at(
    alloc: Global,
    names: &Indexed<Text>,
    text: Option<&str>,
) -> Result<Template, ShapeFault>
    ensures { ReadsPart result (here (option_and_then (template_of names.now) (option_map (λ s. s.now) text.entry))) }
{
    let text = here(alloc, text)?;
    let template = template_of(alloc, names, text)?;
    here(alloc, template)
}

/// The squeezed JSON of a string that is there.
fn json_at(alloc: Global, text: Option<&str>) -> Result<JsonText, ShapeFault>
    ensures { ReadsPart result (here (option_and_then json_text (option_map (λ s. s.now) text.entry))) }
{
    let text = here(alloc, text)?;
    let json = JsonText::of(alloc, text)?;
    here(alloc, json)
}

impl Part<Indexed<Text>> for Template {
    ghost part_of = { λ names d. template_in names d };

    #[tactic(auto, unfolding(crate::specs::Shapes::template_in))]
    fn read(alloc: Global, scope: &Indexed<Text>, value: &Value) -> Result<Template, ShapeFault> {
        template_at(alloc, scope, value.as_str())
    }
}

impl Part<()> for JsonText {
    ghost part_of = { λ _ d. json_in d };

    #[tactic(auto, unfolding(crate::specs::Shapes::json_in))]
    fn read(alloc: Global, _scope: &(), value: &Value) -> Result<JsonText, ShapeFault> {
        json_at(alloc, value.as_str())
    }
}

impl Part<Indexed<Text>> for CastRule {
    ghost part_of = { λ names d. cast_in names d };

    #[tactic(auto, unfolding(crate::specs::Shapes::cast_in))]
    fn read(alloc: Global, scope: &Indexed<Text>, value: &Value) -> Result<CastRule, ShapeFault> {
        let to = template_at(alloc, scope, text_at(value, "to"))?;
        let payload = json_at(alloc, text_at(value, "payload"))?;
        Ok(CastRule { to, payload })
    }
}

/// A name, a string that isn't empty.
#[tactic(auto, unfolding(crate::specs::Shapes::name_in))]
fn name_in(alloc: Global, name: Option<&Value>) -> Result<Text, ShapeFault>
    ensures { ReadsPart result (name_in (option_map (λ v. view v.now) name.entry)) }
{
    let name = here(alloc, name.and_then(Value::as_str))?;
    if !name.is_empty() {
        Ok(Text::new(alloc, name)?)
    } else {
        broken(alloc)
    }
}

/// A truth value, false where it is missing.
#[tactic(auto, unfolding(crate::specs::Shapes::flag_in))]
fn flag_in(alloc: Global, flag: Option<&Value>) -> Result<bool, ShapeFault>
    ensures { ReadsPart result (flag_in (option_map (λ v. view v.now) flag.entry)) }
{
    match flag {
        Some(flag) => here(alloc, flag.as_bool()),
        None => Ok(false),
    }
}

fn has_open(text: &str) -> bool
    ensures { result ≡ list_any opens text.now }
{
    text.as_bytes().contains(&b'{')
}

/// A channel may require this name.
fn is_requirable(name: &str) -> bool
    ensures { result ≡ is_requirable name.now }
{
    !name.is_empty() && name != "user" && !has_open(name) && !has_close(name)
}

fn required_in(alloc: Global, value: &Value) -> Result<Text, ShapeFault>
    ensures { ReadsPart result (required_in (view value.now)) }
{
    let name = here(alloc, value.as_str())?;
    if is_requirable(name) {
        Ok(Text::new(alloc, name)?)
    } else {
        broken(alloc)
    }
}

fn names_in(alloc: Global, items: &[Value]) -> Result<Listed<Text>, ShapeFault>
    ensures { ReadsPart result (names_in (items_view items.now)) }
{
    let mut names = Listed::empty(alloc);
    for item in items {
        let name = required_in(alloc, item)?;
        names.push(name)?;
    }
    Ok(names)
}

/// The names, all of which are different.
fn distinct_names(alloc: Global, names: Listed<Text>) -> Result<Indexed<Text>, ShapeFault>
    ensures { ReadsPart result (distinct_names names) }
{
    let names = Indexed::of(alloc, names)?;
    if names.first_repeat().is_some() {
        broken(alloc)
    } else {
        Ok(names)
    }
}

/// The names that a channel requires, a list that may be missing.
#[tactic(auto, unfolding(crate::specs::Shapes::requires_in))]
fn requires_in(alloc: Global, names: Option<&Value>) -> Result<Indexed<Text>, ShapeFault>
    ensures { ReadsPart result (requires_in (option_map (λ v. view v.now) names.entry)) }
{
    let Some(names) = names else {
        return Ok(Indexed::of(alloc, Listed::empty(alloc))?);
    };
    let items = here(alloc, names.as_array())?;
    let names = names_in(alloc, items)?;
    distinct_names(alloc, names)
}

/// The list of parts in a member.
fn list_at<S, P: Part<S> + Drop>(
    alloc: Global,
    scope: &S,
    object: &Value,
    name: &str,
) -> Result<Listed<P>, ShapeFault>
    ensures { ReadsPart result (within name.now (list_of (P.part_of scope.now) (get name.now (view object.now)))) }
{
    in_member(alloc, name, list_of(alloc, scope, object.get(name)))
}

impl Part<Indexed<Text>> for Action {
    ghost part_of = { λ names d. action_in names d };

    #[tactic(auto, unfolding(crate::specs::Shapes::action_in))]
    fn read(alloc: Global, scope: &Indexed<Text>, value: &Value) -> Result<Action, ShapeFault> {
        here(alloc, value.as_object())?;
        let name = in_member(alloc, "name", name_in(alloc, value.get("name")))?;
        let casts = list_at(alloc, scope, value, "casts")?;
        let echo = in_member(alloc, "echo", flag_in(alloc, value.get("echo")))?;
        let streams = list_at(alloc, scope, value, "streams")?;
        let stops = list_at(alloc, scope, value, "stops")?;
        Ok(Action {
            name,
            casts,
            echo,
            streams,
            stops,
        })
    }
}

#[tactic(auto, unfolding(crate::specs::Shapes::rules_in))]
fn rules_in(alloc: Global, names: &Indexed<Text>, channel: &Value) -> Result<Rules, ShapeFault>
    ensures { ReadsPart result (rules_in names.now (view channel.now)) }
{
    let streams = list_at(alloc, names, channel, "streams")?;
    let says = list_at(alloc, &(), channel, "says")?;
    let enter = list_at(alloc, names, channel, "enter")?;
    let leave = list_at(alloc, names, channel, "leave")?;
    let actions = list_at(alloc, names, channel, "actions")?;
    Ok(Rules {
        streams,
        says,
        enter,
        leave,
        actions: Indexed::of(alloc, actions)?,
    })
}

impl Part<()> for Channel {
    ghost part_of = { λ _ d. channel_in d };

    #[tactic(auto, unfolding(crate::specs::Shapes::channel_in))]
    fn read(alloc: Global, _scope: &(), value: &Value) -> Result<Channel, ShapeFault> {
        here(alloc, value.as_object())?;
        let name = in_member(alloc, "name", name_in(alloc, value.get("name")))?;
        let names = requires_in(alloc, value.get("requires"));
        let required = in_member(alloc, "requires", names)?;
        let rules = rules_in(alloc, &required, value)?;
        Ok(Channel {
            name,
            required,
            rules,
        })
    }
}

/// The channels, a list that must be there.
#[tactic(auto, unfolding(crate::specs::Shapes::channels_in))]
pub fn channels_in(alloc: Global, channels: Option<&Value>) -> Result<Listed<Channel>, ShapeFault>
    ensures { ReadsPart result (channels_in (option_map (λ v. view v.now) channels.entry)) }
{
    let channels = here(alloc, channels)?;
    let items = here(alloc, channels.as_array())?;
    each(alloc, &(), items)
}
