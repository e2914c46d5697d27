ghost use Rattle.std.specs.Prelude.{None, ◌≡◌, ◌<◌, ◌≤◌, length};

use crate::replay_tests::SCRIPT;
use cable_base::{Failed, Source};

const BEAT: &str = "beat 1 0\n";

/// Gives a script, and then beats of its node without end.
#[derive(Debug, Drop)]
pub struct Endless {
    is_behind: bool,
}

impl Endless {
    pub fn new() -> Endless {
        Endless { is_behind: false }
    }
}

/// Puts the text, or as much of it as has room, at the front of the buffer.
fn fill(buf: &mut [u8], text: &str) -> usize
    ensures most { result ≤ length buf.new }
    ensures some { result ≡ 0 → (0 < length text.now) → length buf.new ≡ 0 }
{
    let count = text.len().min(buf.len());
    let (front, _) = buf.split_at_mut(count);
    front.copy_from_slice(&text.as_bytes()[..count]);
    count
}

impl Source for Endless {
    ghost left = { λ s. None };

    ghost faults = { λ s. 0 };

    ghost ends = { λ s. 0 };

    fn next_piece(&mut self, buf: &mut [u8]) -> Result<usize, Failed> {
        let text = if self.is_behind { BEAT } else { SCRIPT };
        self.is_behind = true;
        Ok(fill(buf, text))
    }
}
