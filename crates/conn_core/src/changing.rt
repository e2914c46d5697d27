ghost use Rattle.std.specs.Prelude.{◌≡◌, ℕ, List, ◌+◌, ◌^◌, ◌≤◌, ◌<◌, ◌++◌, [], ◌∷◌, length, map, position, true, Some, option_map, OnOk, OnErr, vec_len};
ghost use Rattle.std.specs.Vec.{vec_capacity};
ghost use Rattle.conn_core.specs.declared.keeping.Kept.{Kept};
ghost use Rattle.conn_core.specs.Subscriptions.{shown, has_identifier, has_number, is_subscribed, AreApart, AreDifferent, placed_in, waits_in, made_now, restreamed, removed};
ghost use Rattle.conn_core.specs.Connections.{AllWantsBelow, AreNewIn, CanApply, applied};
ghost use Rattle.conn_core.specs.Rooms.{HasRoom, IsRoomKept};

use crate::keeping::Kept;
use crate::streaming::want_streams;
use crate::subscriptions::Sub;
use cable_base::{Name, OutOfMemory, RowId, SubNo, Text, WantNo};
use cable_model::Change;
use stream_set::StreamSet;

fn place_of_identifier(subs: &[Sub], identifier: &str) -> Option<usize>
    ensures { result ≡ position (λ s. has_identifier identifier.now (shown s)) subs.now }
{
    subs.iter().position(|sub| sub.identifier() == identifier)
}

fn place_of_number(subs: &[Sub], number: SubNo) -> Option<usize>
    ensures { result ≡ position (λ s. has_number number (shown s)) subs.now }
{
    subs.iter().position(|sub| sub.number() == number)
}

/// Makes room for so many more streams of the subscription with this identifier, where it stands.
pub fn reserve_streams(subs: &mut Vec<Sub>, identifier: &str, more: u64) -> Result<(), OutOfMemory>
    requires { AreApart (map shown subs.old.items) }
    ensures shown { map shown subs.new.items ≡ map shown subs.old.items }
    ensures ok { OnOk result (HasRoom identifier.now more subs.new.items) }
    ensures room { (i : List ℕ) (n : ℕ) → HasRoom i n subs.old.items → HasRoom i n subs.new.items }
    ensures len { vec_len subs.new ≡ vec_len subs.old }
    ensures capacity { vec_capacity subs.new ≡ vec_capacity subs.old }
{
    let Some(at) = place_of_identifier(subs, identifier) else {
        return Ok(());
    };
    let sub = &mut subs[at];
    sub.reserve(more)
}

/// Makes a subscription that wants these streams, numbered from `first` on. The set is empty, and there is room in it and in the list.
fn add_sub(
    subs: &mut Vec<Sub>,
    number: SubNo,
    identifier: Text,
    names: Vec<Name>,
    room: StreamSet,
    first: WantNo,
)
    requires capacity { vec_len subs.old < vec_capacity subs.old }
    requires empty { room.entries ≡ [] }
    requires room { length names.items ≤ room.spare }
    requires different { AreDifferent names.items }
    requires fits { first.0 + length names.items ≤ 2 ^ 64 }
    ensures { map shown subs.new.items ≡ map shown subs.old.items ++ made_now number identifier first.0 names.items ∷ [] }
{
    let mut streams = room;
    want_streams(&mut streams, names, first);
    subs.push_reserved(Sub::new(number, identifier, streams));
}

/// Ends the stops of the subscription with this identifier, and then wants these streams, numbered from `first` on.
fn restream_sub(
    subs: &mut Vec<Sub>,
    identifier: &str,
    stops: &[Name],
    names: Vec<Name>,
    first: WantNo,
)
    requires apart { AreApart (map shown subs.old.items) }
    requires subscribed { is_subscribed identifier.now (map shown subs.old.items) ≡ true }
    requires room { HasRoom identifier.now (length names.items) subs.old.items }
    requires different { AreDifferent names.items }
    requires new { AreNewIn identifier.now stops.now names.items (map shown subs.old.items) }
    requires below { AllWantsBelow first (map shown subs.old.items) }
    requires fits { first.0 + length names.items ≤ 2 ^ 64 }
    ensures { map shown subs.new.items ≡ restreamed identifier.now stops.now names.items first.0 (map shown subs.old.items) }
{
    let Some(at) = place_of_identifier(subs, identifier) else {
        unreachable!()
    };
    let sub = &mut subs[at];
    sub.restream(stops, names, first);
}

/// Ends the subscription with this identifier, where it stands.
fn remove_sub(subs: &mut Vec<Sub>, identifier: &str)
    requires { AreApart (map shown subs.old.items) }
    ensures { map shown subs.new.items ≡ removed identifier.now (map shown subs.old.items) }
{
    if let Some(at) = place_of_identifier(subs, identifier) {
        let _ = subs.remove(at);
    }
}

/// Makes the change, a copy of which was kept with the room for it.
pub fn change_subs(
    subs: &mut Vec<Sub>,
    kept: Option<Kept>,
    change: &Change,
    number: SubNo,
    first: WantNo,
)
    requires apart { AreApart (map shown subs.old.items) }
    requires kept { option_map (λ (k : Kept). k.change) kept ≡ Some change.now }
    requires room { IsRoomKept kept subs.old.items (vec_len subs.old) (vec_capacity subs.old) }
    requires can { CanApply change.now number first (map shown subs.old.items) }
    ensures { map shown subs.new.items ≡ applied change.now number first (map shown subs.old.items) }
{
    match change {
        Change::Nothing => {}
        Change::Add { .. } => {
            let Some(Kept { change: copy, room }) = kept else {
                unreachable!()
            };
            let Change::Add {
                identifier,
                streams,
            } = copy
            else {
                unreachable!()
            };
            add_sub(subs, number, identifier, streams.into_items(), room, first);
        }
        Change::Streams {
            identifier,
            stops,
            ..
        } => {
            let Some(Kept { change: copy, .. }) = kept else {
                unreachable!()
            };
            let Change::Streams { streams, .. } = copy else {
                unreachable!()
            };
            restream_sub(
                subs,
                identifier.as_str(),
                stops.as_slice(),
                streams.into_items(),
                first,
            );
        }
        Change::Remove { identifier } => remove_sub(subs, identifier.as_str()),
        Change::Close => subs.clear(),
    }
}

/// Gives the want of the subscription its mark. `false` where that subscription doesn't stand or has no such want without a mark.
pub fn place_want(subs: &mut Vec<Sub>, number: SubNo, want: WantNo, mark: RowId) -> bool
    requires { AreApart (map shown subs.old.items) }
    ensures answer { result ≡ waits_in number want (map shown subs.old.items) }
    ensures shown { map shown subs.new.items ≡ placed_in number want mark (map shown subs.old.items) }
    ensures room { (i : List ℕ) (n : ℕ) → HasRoom i n subs.old.items → HasRoom i n subs.new.items }
    ensures len { vec_len subs.new ≡ vec_len subs.old }
    ensures capacity { vec_capacity subs.new ≡ vec_capacity subs.old }
{
    let Some(at) = place_of_number(subs, number) else {
        return false;
    };
    let sub = &mut subs[at];
    sub.place(want, mark)
}
