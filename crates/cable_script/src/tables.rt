//! The lines of the table: `cast` and `trim`. Each is given by the text behind its verb's blank.
ghost use Rattle.cable_script.specs.Reading.{Gives, payload_in, cast_of, cast_in, trim_in};

use crate::faults::LineFault;
use crate::numbers::{batch_in, millis_in};
use crate::words::{three_words, two_words_and_rest};
use cable_base::{MOST_NAME, MOST_PAYLOAD, Millis, Name, Text, squeeze};
use cable_json::read_json;
use cable_model::{Event, Verb};
use std::alloc::Global;

/// The JSON without its white space.
#[tactic(auto, unfolding(crate::specs::Reading::payload_in))]
fn payload_in(alloc: Global, json: &str) -> Result<Text, LineFault>
    ensures { Gives result (payload_in json.now) }
{
    if read_json(alloc, json)?.is_none() {
        return Err(LineFault::BadJson);
    }
    Ok(squeeze(alloc, json)?)
}

#[tactic(auto, unfolding(crate::specs::Reading::cast_of))]
fn cast_of(alloc: Global, at: Millis, channel: &str, payload: Text) -> Result<Verb, LineFault>
    ensures { Gives result (cast_of at channel.now payload) }
{
    if channel.len() > MOST_NAME || payload.as_str().len() > MOST_PAYLOAD {
        return Err(LineFault::TooLarge);
    }
    let channel = Name::new(alloc, channel)?;
    Ok(Verb::One {
        event: Event::Cast {
            at,
            channel,
            payload,
        },
    })
}

#[tactic(auto, unfolding(crate::specs::Reading::cast_in))]
pub fn cast_in(alloc: Global, text: &str) -> Result<Verb, LineFault>
    ensures { Gives result (cast_in text.now) }
{
    let Some((at, channel, json)) = two_words_and_rest(text) else {
        return Err(LineFault::BadWords);
    };
    let at = millis_in(at)?;
    let payload = payload_in(alloc, json)?;
    cast_of(alloc, at, channel, payload)
}

#[tactic(auto, unfolding(crate::specs::Reading::trim_in))]
pub fn trim_in(text: &str) -> Result<Verb, LineFault>
    ensures { Gives result (trim_in text.now) }
{
    let Some((now, retention, batch)) = three_words(text) else {
        return Err(LineFault::BadWords);
    };
    let now = millis_in(now)?;
    let retention = millis_in(retention)?;
    let batch = batch_in(batch)?;
    Ok(Verb::One {
        event: Event::Trim {
            now,
            retention,
            batch,
        },
    })
}
