ghost use Rattle.std.specs.Prelude.{ℕ, List, Result};
ghost use Rattle.cable_base.specs.declared.numbers.RowId.{RowId};
ghost use Rattle.cable_model.specs.declared.journals.Origin.{Origin};
ghost use Rattle.poll_turn.specs.Turns.{CaughtState, TurnState};
ghost use Rattle.table_core.specs.declared.faults.StoreFault.{StoreFault};
ghost use Rattle.table_core.specs.Tables.{IsWithinLimits};

use crate::faults::StoreFault;
use crate::keepers::Keeper;
use crate::tables::Table;
use cable_base::{Millis, RowId};
use cable_model::Origin;
use poll_turn::{Caught, Turn};

/// A table as those that commit to it have it: locked for each call, or their own.
///
/// The call names a relation between the store before, the arguments, the answer and the store after. A [`Table`](crate::Table) names its
/// commits.
pub trait Store {
    ghost commits: { Self → Origin → (channel payload : List ℕ) → (at : ℕ) → Result RowId StoreFault → Self → Type 0 };

    /// Puts a row behind the others, within the limits of [`Table::commit`](crate::Table::commit), and answers its id.
    fn commit(
        &mut self,
        from: Origin,
        channel: &str,
        payload: &str,
        at: Millis,
    ) -> Result<RowId, StoreFault>
        requires limits { IsWithinLimits channel.now payload.now at.0 }
        ensures commits { commits self.old from channel.now payload.now at.0 result self.new };
}

/// A table as the listeners have it. Its call names a relation as that of [`Store`] does.
pub trait Reads {
    ghost reads: { Self → TurnState → Result CaughtState TurnState → Self → Type 0 };

    /// Reads what a turn asks for. The turn comes back where memory is wanted.
    fn read(&mut self, turn: Turn) -> Result<Caught, Turn>
        ensures reads { reads self.old turn result self.new };
}

impl<K: Keeper> Store for Table<K> {
    ghost use Rattle.table_core.specs.Stores.{CommitsRow};

    ghost commits = { λ old from channel payload at result new.
        CommitsRow (record { rows = K.rows; counts = K.counts; place = K.place }) old from channel payload at result new };

    fn commit(
        &mut self,
        from: Origin,
        channel: &str,
        payload: &str,
        at: Millis,
    ) -> Result<RowId, StoreFault> {
        Table::commit(self, from, channel, payload, at)
    }
}

impl<K: Keeper> Reads for Table<K> {
    ghost use Rattle.table_core.specs.Stores.{ReadsTurn};

    ghost reads = { λ old turn result new. ReadsTurn (record { rows = K.rows; counts = K.counts; place = K.place }) old turn result new };

    fn read(&mut self, turn: Turn) -> Result<Caught, Turn> {
        Table::read(self, turn)
    }
}
