ghost use Rattle.std.specs.Prelude.{IsTrue, nat_lt, if◌then◌else◌, ◌≡◌, ◌^◌, Some, None};
ghost use Rattle.std.specs.List.{list_all};
ghost use Rattle.std.specs.Char.{is_ascii_digit};
ghost use Rattle.std.specs.Str.Parse.{digits_value};
ghost use Rattle.cable_script.specs.Words.{is_number, number_in};
ghost use Rattle.cable_script.specs.Reading.{Gives, node_in, conn_in, millis_in, batch_in, puts_in, node_alone, conn_alone};

use crate::faults::LineFault;
use crate::words::one_word;
use cable_base::{
    ConnNo, LAST_CONN, LAST_MOMENT, LAST_NODE, MOST_BATCH, MOST_PUTS, Millis, NodeNo,
};

fn all_digits(word: &str) -> bool
    ensures { result ≡ list_all is_ascii_digit word.now }
{
    word.as_bytes().iter().all(|b| b.is_ascii_digit())
}

fn spells_number(word: &str) -> bool
    ensures { result ≡ is_number word.now }
{
    all_digits(word) && !word.is_empty() && (word.len() == 1 || word.as_bytes()[0] != b'0')
}

fn parsed(word: &str) -> Option<u64>
    requires { IsTrue (is_number word.now) }
    ensures { result ≡ (if nat_lt (digits_value 10 word.now) (2 ^ 64) then Some (digits_value 10 word.now) else None) }
{
    word.parse::<u64>().ok()
}

/// The number that a word spells in decimal digits without a leading zero, where it is from `low` to `high`.
pub fn number_in(low: u64, high: u64, word: &str) -> Option<u64>
    ensures { result ≡ number_in low high word.now }
{
    if !spells_number(word) {
        return None;
    }
    let number = parsed(word)?;
    if low <= number && number <= high {
        Some(number)
    } else {
        None
    }
}

/// The number of a node, from 1 to `LAST_NODE`.
#[tactic(auto, unfolding(crate::specs::Reading::node_in))]
pub fn node_in(word: &str) -> Result<NodeNo, LineFault>
    ensures { Gives result (node_in word.now) }
{
    match number_in(1, LAST_NODE, word) {
        Some(number) => Ok(NodeNo(number as u32)),
        None => Err(LineFault::BadNumber),
    }
}

/// The number of a connection, from 1 to `LAST_CONN`.
#[tactic(auto, unfolding(crate::specs::Reading::conn_in))]
pub fn conn_in(word: &str) -> Result<ConnNo, LineFault>
    ensures { Gives result (conn_in word.now) }
{
    match number_in(1, LAST_CONN, word) {
        Some(number) => Ok(ConnNo(number)),
        None => Err(LineFault::BadNumber),
    }
}

/// A moment or a span in milliseconds, up to `LAST_MOMENT`.
#[tactic(auto, unfolding(crate::specs::Reading::millis_in))]
pub fn millis_in(word: &str) -> Result<Millis, LineFault>
    ensures { Gives result (millis_in word.now) }
{
    match number_in(0, LAST_MOMENT, word) {
        Some(number) => Ok(Millis(number)),
        None => Err(LineFault::BadNumber),
    }
}

/// How many rows a trim takes at most, from 1 to `MOST_BATCH`.
pub fn batch_in(word: &str) -> Result<u64, LineFault>
    ensures { Gives result (batch_in word.now) }
{
    number_in(1, MOST_BATCH, word).ok_or(LineFault::BadNumber)
}

/// How many broadcasts a worker commits, from 0 to `MOST_PUTS`.
pub fn puts_in(word: &str) -> Result<u64, LineFault>
    ensures { Gives result (puts_in word.now) }
{
    number_in(0, MOST_PUTS, word).ok_or(LineFault::BadNumber)
}

/// The number of a node, and no more.
#[tactic(auto, unfolding(crate::specs::Reading::node_alone))]
pub fn node_alone(text: &str) -> Result<NodeNo, LineFault>
    ensures { Gives result (node_alone text.now) }
{
    match one_word(text) {
        Some(word) => node_in(word),
        None => Err(LineFault::BadWords),
    }
}

/// The number of a connection, and no more.
#[tactic(auto, unfolding(crate::specs::Reading::conn_alone))]
pub fn conn_alone(text: &str) -> Result<ConnNo, LineFault>
    ensures { Gives result (conn_alone text.now) }
{
    match one_word(text) {
        Some(word) => conn_in(word),
        None => Err(LineFault::BadWords),
    }
}
