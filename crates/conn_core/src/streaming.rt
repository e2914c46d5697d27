ghost use Rattle.std.specs.Prelude.{◌≡◌, ◌+◌, ◌^◌, ◌≤◌, ◌++◌, length};
ghost use Rattle.conn_core.specs.Subscriptions.{wanted_from, stopped, AreDifferent, AreNew, WantsBelow};

use cable_base::{Name, WantNo};
use stream_set::StreamSet;

/// Ends the streams of these names.
pub fn stop_streams(streams: &mut StreamSet, stops: &[Name])
    ensures entries { streams.new.entries ≡ stopped stops.now streams.old.entries }
    ensures spare { streams.old.spare ≤ streams.new.spare }
{
    for stop in stops {
        let _ = streams.stop(stop.as_str());
    }
}

/// Wants streams of these names, numbered from `first` on, in room that was made before.
pub fn want_streams(streams: &mut StreamSet, names: Vec<Name>, first: WantNo)
    requires room { length names.items ≤ streams.old.spare }
    requires different { AreDifferent names.items }
    requires new { AreNew names.items streams.old.entries }
    requires below { WantsBelow first.0 streams.old.entries }
    requires fits { first.0 + length names.items ≤ 2 ^ 64 }
    ensures { streams.new.entries ≡ streams.old.entries ++ wanted_from first.0 names.items }
{
    let mut count = 0;
    for name in names {
        let _ = streams.want_kept(name, WantNo(first.0 + count));
        count += 1;
    }
}
