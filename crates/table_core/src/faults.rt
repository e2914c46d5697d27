use cable_base::OutOfMemory;
use std::alloc::AllocFailed;

/// Why a keeper refused a call.
#[derive(Clone, Copy, Debug, PartialEq, Eq)]
pub enum KeeperFault {
    /// The keeper failed. Its count of faults rose.
    Failed,
    /// Memory was wanted and not to be had.
    OutOfMemory,
}

impl From<OutOfMemory> for KeeperFault {
    ghost use Rattle.std.specs.Prelude.{◌≡◌};
    ghost use Rattle.table_core.specs.declared.faults.KeeperFault.TheVariants as keeper_fault;

    ghost from_gives = { λ _ e. e ≡ keeper_fault.OutOfMemory };

    fn from(_e: OutOfMemory) -> KeeperFault {
        KeeperFault::OutOfMemory
    }
}

impl<T: Drop> From<AllocFailed<T>> for KeeperFault {
    ghost use Rattle.std.specs.Prelude.{◌≡◌};
    ghost use Rattle.table_core.specs.declared.faults.KeeperFault.TheVariants as keeper_fault;

    ghost from_gives = { λ _ e. e ≡ keeper_fault.OutOfMemory };

    fn from(_e: AllocFailed<T>) -> KeeperFault {
        KeeperFault::OutOfMemory
    }
}

/// Why a call of the table was refused.
#[derive(Clone, Copy, Debug, PartialEq, Eq)]
pub enum StoreFault {
    /// The table's keeper failed. Its count of faults rose.
    Failed,
    /// The last row has the greatest id, `MOST_ID`. Only a commit is refused so.
    IdsSpent,
    /// Memory was wanted and not to be had.
    OutOfMemory,
}

impl From<OutOfMemory> for StoreFault {
    ghost use Rattle.std.specs.Prelude.{◌≡◌};
    ghost use Rattle.table_core.specs.declared.faults.StoreFault.TheVariants as store_fault;

    ghost from_gives = { λ _ e. e ≡ store_fault.OutOfMemory };

    fn from(_e: OutOfMemory) -> StoreFault {
        StoreFault::OutOfMemory
    }
}

impl From<KeeperFault> for StoreFault {
    ghost use Rattle.table_core.specs.Tables.{GivesFault};

    ghost from_gives = { GivesFault };

    fn from(e: KeeperFault) -> StoreFault {
        match e {
            KeeperFault::Failed => StoreFault::Failed,
            KeeperFault::OutOfMemory => StoreFault::OutOfMemory,
        }
    }
}
