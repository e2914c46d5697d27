use crate::stops::Stop;
use cable_base::Steps;
use node_core::Node;
use poll_turn::{Caught, Turn};
use std::sync::ledger::Ledger;
use std::time::{Clock, Instant};
use table_core::{MemKeeper, Table};

/// Delivers what a turn caught.
fn delivers<L: Ledger>(node: &mut Node, steps: &mut Steps<L>, caught: Caught) -> bool {
    if !node.expects(&caught) {
        caught.give_up();
        return false;
    }
    match node.deliver(caught, steps) {
        Ok(()) => true,
        Err(caught) => {
            caught.give_up();
            false
        }
    }
}

/// Reads what a turn asks for, and delivers it.
fn answers<L: Ledger>(
    node: &mut Node,
    table: &mut Table<MemKeeper>,
    steps: &mut Steps<L>,
    turn: Turn,
) -> bool {
    match table.read(turn) {
        Ok(caught) => delivers(node, steps, caught),
        Err(turn) => {
            turn.give_up();
            false
        }
    }
}

/// Makes one turn of the node's listener.
pub fn turn<L: Ledger>(
    node: &mut Node,
    table: &mut Table<MemKeeper>,
    steps: &mut Steps<L>,
) -> bool {
    match node.ask() {
        Ok(Some(turn)) => answers(node, table, steps, turn),
        Ok(None) | Err(_) => false,
    }
}

/// An Ask: how long it took, and how many names it asked for.
#[derive(Clone, Copy)]
pub struct Asked {
    pub nanos: u128,
    pub names: u64,
}

/// Makes one turn of the node's listener, and times its Ask.
pub fn timed_ask<R: Clock, L: Ledger>(
    rt: &R,
    node: &mut Node,
    table: &mut Table<MemKeeper>,
    steps: &mut Steps<L>,
) -> Result<Asked, Stop> {
    let start = Instant::now(rt)?;
    let Ok(Some(turn)) = node.ask() else {
        return Err(Stop::Refused);
    };
    let taken = start.elapsed(rt);
    let names = turn.hashes().len() as u64;
    if !answers(node, table, steps, turn) {
        return Err(Stop::Refused);
    }
    let nanos = taken?.as_nanos();
    Ok(Asked { nanos, names })
}
