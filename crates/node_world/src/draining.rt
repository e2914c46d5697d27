ghost use Rattle.std.specs.Prelude.{◌≡◌, ◌≤◌, ◌==◌, ◌++◌, ℕ, true, false, map, flat_map, drop, length, IfOk, OnOk};
ghost use Rattle.std.specs.List.{list_any, IsDistinct};
ghost use Rattle.std.specs.Ordering.{nat_cmp, eq_by_cmp};
ghost use Rattle.cable_base.specs.declared.numbers.ConnNo.{ConnNo};
ghost use Rattle.cable_model.specs.Transcript.{queued};
ghost use Rattle.cable_model.specs.Possible.{is_over};
ghost use Rattle.node_core.specs.Forgetting.{is_drained};
ghost use Rattle.node_core.specs.Nodes.{TakesNone, is_forgotten, line_on, past, taken_out};
ghost use Rattle.node_world.specs.Draining.{IsForgottenOver, left_on};

use crate::saying::Said;
use cable_base::{ConnNo, Listed, OutOfMemory};
use cable_model::Line;
use conn_seat::Out;
use node_core::Node;
use std::alloc::Global;

/// What was queued on a connection, as a line.
fn line_of(conn: ConnNo, out: Out) -> Line
    ensures { result ≡ line_on conn.0 out }
{
    match out {
        Out::Text(text) => Line::Text { conn, text },
        Out::Note(note) => Line::Note {
            conn: Some(conn),
            note,
        },
    }
}

/// Forgets the connection where it is over and all that was queued on it was taken out, so that the node keeps a few bytes of it.
fn forget_over(node: &mut Node, conn: ConnNo)
    ensures kept { (node.new.kept ≡ node.old.kept) × (node.new.no ≡ node.old.no) }
    ensures taken { TakesNone node.old node.new }
    ensures forgotten { is_over conn.0 (past node.old) ≡ true → is_drained conn.0 node.old ≡ true → is_forgotten conn.0 node.new ≡ true }
{
    if node.may_forget(conn) {
        node.forget(conn);
    }
}

/// Takes out all that is queued on the connection, and puts it behind these lines. Where it is over, the node forgets it then.
fn drain_into(node: &mut Node, conn: ConnNo, lines: &mut Listed<Line>) -> Result<(), OutOfMemory>
    requires { taken_out conn.0 node.old ≤ length (queued conn.0 (past node.old)) }
    ensures kept { (node.new.kept ≡ node.old.kept) × (node.new.no ≡ node.old.no) }
    ensures lines { OnOk result (lines.new ≡ lines.old ++ left_on node.old conn.0) }
    ensures taken { OnOk result (taken_out conn.0 node.new ≡ length (queued conn.0 (past node.old))) }
    ensures forgotten { OnOk result (IsForgottenOver conn.0 node.new) }
    ensures others { (c : ℕ) → (c == conn.0) ≡ false → taken_out c node.new ≡ taken_out c node.old }
{
    for _ in 0..u64::MAX {
        let Some(out) = node.take_out(conn) else {
            forget_over(node, conn);
            return Ok(());
        };
        lines.push(line_of(conn, out))?;
    }
    Err(OutOfMemory)
}

/// Takes out all that is queued on the connection: what an event said there. Where it is over, the node forgets it then.
pub fn drain(alloc: Global, node: &mut Node, conn: ConnNo) -> Result<Said, OutOfMemory>
    requires { taken_out conn.0 node.old ≤ length (queued conn.0 (past node.old)) }
    ensures kept { (node.new.kept ≡ node.old.kept) × (node.new.no ≡ node.old.no) }
    ensures lines { IfOk result (λ s. s ≡ record { idle = false; lines = left_on node.old conn.0 }) }
    ensures taken { IfOk result (λ _. taken_out conn.0 node.new ≡ length (queued conn.0 (past node.old))) }
    ensures forgotten { IfOk result (λ _. IsForgottenOver conn.0 node.new) }
    ensures others { (c : ℕ) → (c == conn.0) ≡ false → taken_out c node.new ≡ taken_out c node.old }
{
    let mut lines = Listed::empty(alloc);
    drain_into(node, conn, &mut lines)?;
    Ok(Said { idle: false, lines })
}

/// Takes out all that is queued on each of these connections, which differ, one after the other.
pub fn drain_each(alloc: Global, node: &mut Node, conns: &[ConnNo]) -> Result<Said, OutOfMemory>
    requires distinct { IsDistinct (eq_by_cmp nat_cmp) (map (λ (c : ConnNo). c.0) conns.now) }
    requires within { (c : ℕ) → taken_out c node.old ≤ length (queued c (past node.old)) }
    ensures kept { (node.new.kept ≡ node.old.kept) × (node.new.no ≡ node.old.no) }
    ensures lines { IfOk result (λ s. s ≡ record { idle = false; lines = flat_map (λ (c : ConnNo). left_on node.old c.0) conns.now }) }
    ensures taken { IfOk result (λ _. (c : ℕ) → list_any (λ (d : ConnNo). d.0 == c) conns.now ≡ true
        → taken_out c node.new ≡ length (queued c (past node.old))) }
    ensures others { (c : ℕ) → list_any (λ (d : ConnNo). d.0 == c) conns.now ≡ false → taken_out c node.new ≡ taken_out c node.old }
{
    let mut lines = Listed::empty(alloc);
    for conn in conns {
        drain_into(node, *conn, &mut lines)?;
    }
    Ok(Said { idle: false, lines })
}
