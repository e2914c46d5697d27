ghost use Rattle.worker_gate.specs.Listening.{ListensOnce};

use cable_base::{OutOfMemory, Steps};
use node_core::Ears;
use std::sync::ledger::Ledger;
use table_core::Reads;

/// Makes one turn of a listener: asks it, reads it, and delivers what it caught, be it found or missed. `false` is answered exactly where a
/// turn was out. Where memory is wanted once the turn is asked, it is given up: the node keeps it out.
pub fn listen_once<E: Ears, S: Reads, L: Ledger>(
    ears: &mut E,
    store: &mut S,
    steps: &mut Steps<L>,
) -> Result<bool, OutOfMemory>
    ensures { ListensOnce (record { asks = E.asks; delivers = E.delivers; reads = S.reads }) (record { ears = ears.old; store = store.old }) result
        (record { ears = ears.new; store = store.new }) }
{
    let Some(turn) = ears.ask()? else {
        return Ok(false);
    };
    let caught = match store.read(turn) {
        Ok(caught) => caught,
        Err(turn) => {
            turn.give_up();
            return Err(OutOfMemory);
        }
    };
    match ears.deliver(caught, steps) {
        Ok(()) => Ok(true),
        Err(caught) => {
            caught.give_up();
            Err(OutOfMemory)
        }
    }
}
