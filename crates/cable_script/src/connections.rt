//! The lines of a connection: `open`, `in`, `drop`, `take`, `put`, `finish` and `work`. Each is given by the text behind its verb's blank.
ghost use Rattle.cable_script.specs.Reading.{Gives, open_in, text_in, drop_in, take_in, put_in, finish_in, work_in};

use crate::faults::LineFault;
use crate::numbers::{conn_alone, conn_in, millis_in, node_in, puts_in};
use crate::words::{next_word, three_words, two_words};
use cable_base::Text;
use cable_model::{Event, Verb};
use std::alloc::Global;

#[tactic(auto, unfolding(crate::specs::Reading::open_in))]
pub fn open_in(alloc: Global, text: &str) -> Result<Verb, LineFault>
    ensures { Gives result (open_in text.now) }
{
    let Some((node, conn, token)) = three_words(text) else {
        return Err(LineFault::BadWords);
    };
    let node = node_in(node)?;
    let conn = conn_in(conn)?;
    let token = Text::new(alloc, token)?;
    Ok(Verb::One {
        event: Event::Open { node, conn, token },
    })
}

#[tactic(auto, unfolding(crate::specs::Reading::text_in))]
pub fn text_in(alloc: Global, text: &str) -> Result<Verb, LineFault>
    ensures { Gives result (text_in text.now) }
{
    let Some((conn, text)) = next_word(text) else {
        return Err(LineFault::BadWords);
    };
    let conn = conn_in(conn)?;
    let text = Text::new(alloc, text)?;
    Ok(Verb::One {
        event: Event::In { conn, text },
    })
}

#[tactic(auto, unfolding(crate::specs::Reading::drop_in))]
pub fn drop_in(text: &str) -> Result<Verb, LineFault>
    ensures { Gives result (drop_in text.now) }
{
    let conn = conn_alone(text)?;
    Ok(Verb::One {
        event: Event::Drop { conn },
    })
}

#[tactic(auto, unfolding(crate::specs::Reading::take_in))]
pub fn take_in(text: &str) -> Result<Verb, LineFault>
    ensures { Gives result (take_in text.now) }
{
    let conn = conn_alone(text)?;
    Ok(Verb::One {
        event: Event::Take { conn },
    })
}

#[tactic(auto, unfolding(crate::specs::Reading::put_in))]
pub fn put_in(text: &str) -> Result<Verb, LineFault>
    ensures { Gives result (put_in text.now) }
{
    let Some((conn, at)) = two_words(text) else {
        return Err(LineFault::BadWords);
    };
    let conn = conn_in(conn)?;
    let at = millis_in(at)?;
    Ok(Verb::One {
        event: Event::Put { conn, at },
    })
}

#[tactic(auto, unfolding(crate::specs::Reading::finish_in))]
pub fn finish_in(text: &str) -> Result<Verb, LineFault>
    ensures { Gives result (finish_in text.now) }
{
    let conn = conn_alone(text)?;
    Ok(Verb::One {
        event: Event::Finish { conn },
    })
}

#[tactic(auto, unfolding(crate::specs::Reading::work_in))]
pub fn work_in(text: &str) -> Result<Verb, LineFault>
    ensures { Gives result (work_in text.now) }
{
    let Some((conn, at, puts)) = three_words(text) else {
        return Err(LineFault::BadWords);
    };
    let conn = conn_in(conn)?;
    let at = millis_in(at)?;
    let puts = puts_in(puts)?;
    Ok(Verb::Work { conn, at, puts })
}
