//! The lines of a node: `boot`, `stop`, `ask`, `read`, `deliver`, `poll` and `beat`. Each is given by the text behind its verb's blank.
ghost use Rattle.cable_script.specs.Reading.{Gives, boot_in, stop_in, ask_in, read_in, deliver_in, poll_in, beat_in};

use crate::faults::LineFault;
use crate::numbers::{millis_in, node_alone, node_in};
use crate::words::two_words;
use cable_model::{Event, Verb};

#[tactic(auto, unfolding(crate::specs::Reading::boot_in))]
pub fn boot_in(text: &str) -> Result<Verb, LineFault>
    ensures { Gives result (boot_in text.now) }
{
    let node = node_alone(text)?;
    Ok(Verb::One {
        event: Event::Boot { node },
    })
}

#[tactic(auto, unfolding(crate::specs::Reading::stop_in))]
pub fn stop_in(text: &str) -> Result<Verb, LineFault>
    ensures { Gives result (stop_in text.now) }
{
    let node = node_alone(text)?;
    Ok(Verb::One {
        event: Event::Stop { node },
    })
}

#[tactic(auto, unfolding(crate::specs::Reading::ask_in))]
pub fn ask_in(text: &str) -> Result<Verb, LineFault>
    ensures { Gives result (ask_in text.now) }
{
    let node = node_alone(text)?;
    Ok(Verb::One {
        event: Event::Ask { node },
    })
}

#[tactic(auto, unfolding(crate::specs::Reading::read_in))]
pub fn read_in(text: &str) -> Result<Verb, LineFault>
    ensures { Gives result (read_in text.now) }
{
    let node = node_alone(text)?;
    Ok(Verb::One {
        event: Event::Read { node },
    })
}

#[tactic(auto, unfolding(crate::specs::Reading::deliver_in))]
pub fn deliver_in(text: &str) -> Result<Verb, LineFault>
    ensures { Gives result (deliver_in text.now) }
{
    let node = node_alone(text)?;
    Ok(Verb::One {
        event: Event::Deliver { node },
    })
}

#[tactic(auto, unfolding(crate::specs::Reading::poll_in))]
pub fn poll_in(text: &str) -> Result<Verb, LineFault>
    ensures { Gives result (poll_in text.now) }
{
    let node = node_alone(text)?;
    Ok(Verb::Poll { node })
}

#[tactic(auto, unfolding(crate::specs::Reading::beat_in))]
pub fn beat_in(text: &str) -> Result<Verb, LineFault>
    ensures { Gives result (beat_in text.now) }
{
    let Some((node, now)) = two_words(text) else {
        return Err(LineFault::BadWords);
    };
    let node = node_in(node)?;
    let now = millis_in(now)?;
    Ok(Verb::One {
        event: Event::Beat { node, now },
    })
}
