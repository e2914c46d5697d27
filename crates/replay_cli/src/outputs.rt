ghost use Rattle.std.specs.Prelude.{◌≤◌};
ghost use Rattle.replay_cli.specs.Outputs.{Writes, writing_of};

use cable_base::{Sink, Trouble};

/// Writes all of the bytes. A refusal leaves a front of them written.
pub fn write_all<K: Sink>(sink: &mut K, bytes: &[u8]) -> Result<(), Trouble>
    ensures faults { K.faults sink.old ≤ K.faults sink.new }
    ensures wrote { Writes (writing_of K.taken K.faults sink.old sink.new) bytes.now result }
{
    let mut at = 0;
    while at < bytes.len() {
        at += sink.put(&bytes[at..])?;
    }
    Ok(())
}
