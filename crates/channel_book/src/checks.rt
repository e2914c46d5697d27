ghost use Rattle.std.specs.Prelude.{◌≡◌, option_map, flat_map};
ghost use Rattle.channel_book.specs.Templates.{is_reserved};
ghost use Rattle.channel_book.specs.Books.{first_reserved, targets, action_templates, channel_templates, reserved_in, repeated_in};

use crate::declarations::{Action, CastRule, Channel};
use crate::names::{Indexed, Named};
use crate::templates::Template;

fn is_reserved(text: &str) -> bool
    ensures { result ≡ is_reserved text.now }
{
    text.starts_with("action_cable/")
}

/// The first of these templates that is reserved.
fn first_reserved(templates: &[Template]) -> Option<&str>
    ensures { option_map (λ s. s.now) result ≡ first_reserved templates.now }
{
    for template in templates {
        if is_reserved(template.text.as_str()) {
            return Some(template.text.as_str());
        }
    }
    None
}

fn reserved_target(rules: &[CastRule]) -> Option<&str>
    ensures { option_map (λ s. s.now) result ≡ first_reserved (targets rules.now) }
{
    for rule in rules {
        if is_reserved(rule.to.text.as_str()) {
            return Some(rule.to.text.as_str());
        }
    }
    None
}

#[tactic(auto, using(crate::proofs::Walk::first_reserved_append))]
fn reserved_in_action(action: &Action) -> Option<&str>
    ensures { option_map (λ s. s.now) result ≡ first_reserved (action_templates action.now) }
{
    first_reserved(action.casts.as_slice())
        .or(first_reserved(action.streams.as_slice()))
        .or(first_reserved(action.stops.as_slice()))
}

#[tactic(auto, using(crate::proofs::Walk::first_reserved_append))]
fn reserved_in_actions(actions: &[Action]) -> Option<&str>
    ensures { option_map (λ s. s.now) result ≡ first_reserved (flat_map action_templates actions.now) }
{
    for action in actions {
        if let Some(template) = reserved_in_action(action) {
            return Some(template);
        }
    }
    None
}

#[tactic(auto, using(crate::proofs::Walk::first_reserved_append))]
fn reserved_in_channel(channel: &Channel) -> Option<&str>
    ensures { option_map (λ s. s.now) result ≡ first_reserved (channel_templates channel.now) }
{
    first_reserved(channel.rules.streams.as_slice())
        .or(reserved_target(channel.rules.enter.as_slice()))
        .or(reserved_target(channel.rules.leave.as_slice()))
        .or(reserved_in_actions(channel.rules.actions.as_slice()))
}

/// The first template of the walk that begins with `action_cable/`.
#[tactic(auto, using(crate::proofs::Walk::first_reserved_append))]
pub fn reserved_in(channels: &[Channel]) -> Option<&str>
    ensures { option_map (λ s. s.now) result ≡ reserved_in channels.now }
{
    for channel in channels {
        if let Some(template) = reserved_in_channel(channel) {
            return Some(template);
        }
    }
    None
}

/// The first name of the walk that stood before: a channel's name, or an action's name in its channel.
pub fn repeated_in(channels: &Indexed<Channel>) -> Option<&str>
    ensures { option_map (λ s. s.now) result ≡ repeated_in channels.now }
{
    for (i, channel) in channels.as_slice().iter().enumerate() {
        if channels.stood_before(channel.name(), i) {
            return Some(channel.name());
        }
        if let Some(name) = channel.rules.actions.first_repeat() {
            return Some(name);
        }
    }
    None
}
