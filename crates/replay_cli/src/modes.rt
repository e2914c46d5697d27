ghost use Rattle.std.specs.Prelude.{◌≡◌, map, string_bytes};
ghost use Rattle.replay_cli.specs.Modes.{made_order, word_order, order_of};

use cable_script::number_in;

/// The most lines that are drawn for a made script.
pub const MOST_MADE: u64 = 1_000_000;

/// What is written of a script.
#[derive(Clone, Copy, Debug, PartialEq, Eq)]
pub enum Mode {
    /// Without words: the transcript.
    Transcript,
    /// `--totals`: the transcript, and behind it a line with its totals.
    Totals,
    /// `--print`: the script again, with a line for each event. No event is run.
    Print,
}

/// What the words of the command line ask for.
#[derive(Clone, Copy, Debug, PartialEq, Eq)]
pub enum Order {
    /// The script of the source.
    Read { mode: Mode },
    /// `--make`: the script that is made of this seed, with so many lines drawn. Its end line and its totals line are written.
    Make { seed: u64, count: u64 },
}

#[tactic(auto, unfolding(crate::specs::Modes::made_order))]
fn made_order(seed: &str, count: &str) -> Option<Order>
    ensures { result ≡ made_order seed.now count.now }
{
    let seed = number_in(0, u64::MAX, seed)?;
    let count = number_in(1, MOST_MADE, count)?;
    Some(Order::Make { seed, count })
}

fn word_order(word: &str) -> Option<Order>
    ensures { result ≡ word_order word.now }
{
    match word {
        "--totals" => Some(Order::Read { mode: Mode::Totals }),
        "--print" => Some(Order::Read { mode: Mode::Print }),
        _ => None,
    }
}

/// What these words ask for, if they are one of the four lists that this command takes.
pub fn order_of(words: &[String]) -> Option<Order>
    ensures { result ≡ order_of (map string_bytes words.now) }
{
    match words {
        [] => Some(Order::Read {
            mode: Mode::Transcript,
        }),
        [word] => word_order(word.as_str()),
        [word, seed, count] if word.as_str() == "--make" => {
            made_order(seed.as_str(), count.as_str())
        }
        _ => None,
    }
}
