ghost use Rattle.std.specs.Prelude.{◌≡◌, All, IsSome, IfOk};
ghost use Rattle.serde_json.specs.Read.{read};
ghost use Rattle.serde_json.specs.View.{view};
ghost use Rattle.cable_base.specs.Squeeze.{IsSqueezedJson};
ghost use Rattle.channel_book.specs.declared.answers.Cast.{Cast};
ghost use Rattle.channel_book.specs.Calls.{SpeaksJson};
ghost use Rattle.channel_book.specs.Answers.{nothing, rejection, names_of, casts_of, casts_to, echo_of, beginning, ending, performance, subscription, termination, reaction};

use crate::answers::{Answer, Cast};
use crate::declarations::{Action, CastRule, Channel};
use crate::jsons::JsonText;
use crate::parameters::can_fill;
use crate::templates::{Template, fill};
use cable_base::{Listed, Name, OutOfMemory, Text};
use serde_json::Value;
use std::alloc::Global;

/// An answer that does nothing but refuse the subscription, or not even that.
fn bare(alloc: Global, rejected: bool) -> Answer
    ensures { result ≡ record nothing { rejected = rejected } }
{
    Answer {
        rejected,
        streams: Listed::empty(alloc),
        stops: Listed::empty(alloc),
        says: Listed::empty(alloc),
        casts: Listed::empty(alloc),
    }
}

/// The answer that does nothing.
fn nothing(alloc: Global) -> Answer
    ensures answer { result ≡ nothing }
    ensures json { SpeaksJson result }
{
    bare(alloc, false)
}

/// The answer that refuses the subscription.
fn rejection(alloc: Global) -> Answer
    ensures answer { result ≡ rejection }
    ensures json { SpeaksJson result }
{
    bare(alloc, true)
}

fn names_of(
    alloc: Global,
    user: &str,
    identifier: &Value,
    templates: &[Template],
) -> Result<Listed<Name>, OutOfMemory>
    ensures { IfOk result (λ names. names ≡ names_of user.now (view identifier.now) templates.now) }
{
    let mut names = Listed::empty(alloc);
    for template in templates {
        names.push(fill(alloc, template, user, identifier)?)?;
    }
    Ok(names)
}

fn says_of(alloc: Global, says: &[JsonText]) -> Result<Listed<Text>, OutOfMemory>
    ensures texts { IfOk result (λ texts. texts ≡ says.now) }
    ensures json { IfOk result (λ texts. All IsSqueezedJson texts) }
{
    let mut texts = Listed::empty(alloc);
    for say in says {
        texts.push(say.to_text(alloc)?)?;
    }
    Ok(texts)
}

fn casts_of(
    alloc: Global,
    user: &str,
    identifier: &Value,
    rules: &[CastRule],
) -> Result<Listed<Cast>, OutOfMemory>
    ensures casts { IfOk result (λ casts. casts ≡ casts_of user.now (view identifier.now) rules.now) }
    ensures json { IfOk result (λ casts. All (λ (c : Cast). IsSqueezedJson c.payload) casts) }
{
    let mut casts = Listed::empty(alloc);
    for rule in rules {
        let channel = fill(alloc, &rule.to, user, identifier)?;
        let payload = rule.payload.to_text(alloc)?;
        casts.push(Cast { channel, payload })?;
    }
    Ok(casts)
}

fn casts_to(
    alloc: Global,
    user: &str,
    identifier: &Value,
    payload: &JsonText,
    templates: &[Template],
) -> Result<Listed<Cast>, OutOfMemory>
    ensures casts { IfOk result (λ casts. casts ≡ casts_to user.now (view identifier.now) payload.now templates.now) }
    ensures json { IfOk result (λ casts. All (λ (c : Cast). IsSqueezedJson c.payload) casts) }
{
    let mut casts = Listed::empty(alloc);
    for template in templates {
        let channel = fill(alloc, template, user, identifier)?;
        let payload = payload.to_text(alloc)?;
        casts.push(Cast { channel, payload })?;
    }
    Ok(casts)
}

/// The payload, where it is said back.
fn echo_of(alloc: Global, echo: bool, payload: &JsonText) -> Result<Listed<Text>, OutOfMemory>
    ensures texts { IfOk result (λ texts. texts ≡ echo_of echo payload.now) }
    ensures json { IfOk result (λ texts. All IsSqueezedJson texts) }
{
    let mut texts = Listed::empty(alloc);
    if echo {
        texts.push(payload.to_text(alloc)?)?;
    }
    Ok(texts)
}

/// What a channel does when a subscription with this identifier begins.
fn beginning(
    alloc: Global,
    user: &str,
    identifier: &Value,
    channel: &Channel,
) -> Result<Answer, OutOfMemory>
    ensures answer { IfOk result (λ a. a ≡ beginning user.now (view identifier.now) channel.now) }
    ensures json { IfOk result SpeaksJson }
{
    Ok(Answer {
        rejected: false,
        streams: names_of(alloc, user, identifier, channel.rules.streams.as_slice())?,
        stops: Listed::empty(alloc),
        says: says_of(alloc, channel.rules.says.as_slice())?,
        casts: casts_of(alloc, user, identifier, channel.rules.enter.as_slice())?,
    })
}

/// What a channel does when a subscription with this identifier ends.
fn ending(
    alloc: Global,
    user: &str,
    identifier: &Value,
    channel: &Channel,
) -> Result<Answer, OutOfMemory>
    ensures answer { IfOk result (λ a. a ≡ ending user.now (view identifier.now) channel.now) }
    ensures json { IfOk result SpeaksJson }
{
    Ok(Answer {
        rejected: false,
        streams: Listed::empty(alloc),
        stops: Listed::empty(alloc),
        says: Listed::empty(alloc),
        casts: casts_of(alloc, user, identifier, channel.rules.leave.as_slice())?,
    })
}

/// What an action does with a payload.
fn performance(
    alloc: Global,
    user: &str,
    identifier: &Value,
    payload: &JsonText,
    action: &Action,
) -> Result<Answer, OutOfMemory>
    ensures answer { IfOk result (λ a. a ≡ performance user.now (view identifier.now) payload.now action.now) }
    ensures json { IfOk result SpeaksJson }
{
    Ok(Answer {
        rejected: false,
        streams: names_of(alloc, user, identifier, action.streams.as_slice())?,
        stops: names_of(alloc, user, identifier, action.stops.as_slice())?,
        says: echo_of(alloc, action.echo, payload)?,
        casts: casts_to(alloc, user, identifier, payload, action.casts.as_slice())?,
    })
}

/// What a channel does when a user subscribes. It refuses where a required parameter can't be filled in.
pub fn subscription(
    alloc: Global,
    user: &str,
    identifier: &Value,
    channel: &Channel,
) -> Result<Answer, OutOfMemory>
    ensures answer { IfOk result (λ a. a ≡ subscription user.now (view identifier.now) channel.now) }
    ensures json { IfOk result SpeaksJson }
{
    if can_fill(channel.required.as_slice(), identifier) {
        beginning(alloc, user, identifier, channel)
    } else {
        Ok(rejection(alloc))
    }
}

/// What a channel does when a subscription ends.
pub fn termination(
    alloc: Global,
    user: &str,
    identifier: &Value,
    channel: &Channel,
) -> Result<Answer, OutOfMemory>
    ensures answer { IfOk result (λ a. a ≡ termination user.now (view identifier.now) channel.now) }
    ensures json { IfOk result SpeaksJson }
{
    if can_fill(channel.required.as_slice(), identifier) {
        ending(alloc, user, identifier, channel)
    } else {
        Ok(nothing(alloc))
    }
}

/// What an action of a channel does with a payload, which is JSON.
pub fn reaction(
    alloc: Global,
    user: &str,
    identifier: &Value,
    channel: &Channel,
    payload: &str,
    action: &Action,
) -> Result<Answer, OutOfMemory>
    requires { IsSome (read payload.now) }
    ensures answer { IfOk result (λ a. a ≡ reaction user.now (view identifier.now) channel.now payload.now action.now) }
    ensures json { IfOk result SpeaksJson }
{
    if can_fill(channel.required.as_slice(), identifier) {
        let payload = JsonText::squeezed(alloc, payload)?;
        performance(alloc, user, identifier, &payload, action)
    } else {
        Ok(nothing(alloc))
    }
}
