ghost use Rattle.std.specs.Prelude.{◌≡◌, [], false, Some, None, map, IfOk, OnOk, OnErr};
ghost use Rattle.cable_model.specs.Plans.{task_of};
ghost use Rattle.conn_core.specs.Subscriptions.{shown, AreApart, WantsApart, placed_in, waits_in};
ghost use Rattle.conn_core.specs.Connections.{CanApply, connection_behind};
ghost use Rattle.conn_core.specs.Bare.{bare};

use crate::changing::{change_subs, place_want, reserve_streams};
use crate::keeping::{Kept, keep};
use crate::subscriptions::Sub;
use crate::tasking::piece_task;
use cable_base::{OutOfMemory, RowId, SubNo, Text, WantNo};
use cable_model::{Change, Piece, Plan, Task};
use std::alloc::Global;
use std::marker::Model;

/// One connection in sequence: its user, its subscriptions in the order in which they were made, and whether it is over.
#[derive(Debug, Drop)]
pub struct Conn {
    user: Text,
    subs: Vec<Sub>,
    over: bool,
    kept: Option<Kept>,
}

impl Model for Conn {
    ghost use Rattle.std.specs.Prelude.{map, option_map, vec_len};
    ghost use Rattle.std.specs.Vec.{vec_capacity};
    ghost use Rattle.conn_core.specs.declared.keeping.Kept.{Kept};
    ghost use Rattle.conn_core.specs.Subscriptions.{shown, AreApart, WantsApart};
    ghost use Rattle.conn_core.specs.Connections.{Connection};
    ghost use Rattle.conn_core.specs.Rooms.{IsRoomKept};

    ghost Value = { Connection };

    ghost view = { λ a. record { user = a.user; subs = map shown a.subs.items; over = a.over; reserved = option_map (λ (k : Kept). k.change) a.kept } };

    ghost invariant = { λ a. record {
      apart : AreApart (map shown a.subs.items);
      wants : WantsApart (map shown a.subs.items);
      room : IsRoomKept a.kept a.subs.items (vec_len a.subs) (vec_capacity a.subs);
    } };
}

impl Conn {
    /// A connection of this user, without subscriptions.
    pub fn begin(alloc: Global, user: &str) -> Result<Conn, OutOfMemory>
        ensures { IfOk result (λ k. k ≡ record { user = user.now; subs = []; over = false; reserved = None }) }
    {
        Ok(Conn {
            user: Text::new(alloc, user)?,
            subs: Vec::new(alloc),
            over: false,
            kept: None,
        })
    }

    /// Its user. It takes no memory.
    pub fn user(&self) -> &str
        ensures { result.now ≡ self.now.user }
    {
        self.user.as_str()
    }

    /// Its user, as a text whose copies share its characters. It takes no memory.
    pub fn user_text(&self) -> &Text
        ensures { result.now ≡ self.now.user }
    {
        &self.user
    }

    /// Whether a change that closes it was applied. It takes no memory.
    pub fn is_over(&self) -> bool
        ensures { result ≡ self.now.over }
    {
        self.over
    }

    /// Its subscriptions, in the order in which they were made. It takes no memory.
    pub fn subs(&self) -> &[Sub]
        ensures subs { map shown result.now ≡ self.now.subs }
        ensures apart { AreApart self.now.subs }
        ensures wants { WantsApart self.now.subs }
    {
        self.subs.as_slice()
    }

    /// What the piece needs from it, so that callbacks run without it.
    pub fn task(&self, piece: &Piece) -> Result<Task, OutOfMemory>
        ensures { IfOk result (λ t. t ≡ task_of (bare self.now.subs) piece.now) }
    {
        piece_task(*self.subs.allocator(), &self.subs, piece)
    }

    /// Makes the room that `apply` of this plan needs, and keeps copies of the plan's names for it.
    pub fn reserve(&mut self, plan: &Plan) -> Result<(), OutOfMemory>
        ensures ok { OnOk result (self.new ≡ record self.old { reserved = Some plan.now.change }) }
        ensures err { OnErr result (self.new ≡ self.old) }
    {
        let alloc = *self.subs.allocator();
        let kept = keep(alloc, &plan.change)?;
        match &plan.change {
            Change::Add { .. } => self.subs.reserve(1)?,
            Change::Streams {
                identifier,
                streams,
                ..
            } => reserve_streams(
                &mut self.subs,
                identifier.as_str(),
                streams.as_slice().len() as u64,
            )?,
            Change::Nothing | Change::Remove { .. } | Change::Close => {}
        }
        self.kept = Some(kept);
        Ok(())
    }

    /// Makes the change of a plan that was reserved, where no other call has changed the connection since. A new subscription gets the
    /// number `sub`, and new wants are numbered from `first` on. It takes no memory.
    pub fn apply(&mut self, plan: &Plan, sub: SubNo, first: WantNo)
        requires reserved { self.old.reserved ≡ Some plan.now.change }
        requires can { CanApply plan.now.change sub first self.old.subs }
        ensures { self.new ≡ connection_behind plan.now.change sub first self.old }
    {
        let kept = self.kept.take();
        change_subs(&mut self.subs, kept, &plan.change, sub, first);
        if let Change::Close = plan.change {
            self.over = true;
        }
    }

    /// Gives the want of the subscription its mark: from now on its stream is held. `false` where that subscription doesn't stand or has
    /// no such want without a mark. It takes no memory.
    pub fn place(&mut self, sub: SubNo, want: WantNo, mark: RowId) -> bool
        ensures answer { result ≡ waits_in sub want self.old.subs }
        ensures placed { self.new ≡ record self.old { subs = placed_in sub want mark self.old.subs } }
    {
        place_want(&mut self.subs, sub, want, mark)
    }
}
