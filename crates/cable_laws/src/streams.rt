ghost use Rattle.std.specs.Prelude.{List};
ghost use Rattle.cable_laws.specs.Differ.{AllDiffer};
ghost use Rattle.cable_model.specs.declared.events.Event.{Event};
ghost use Rattle.cable_model.specs.History.{Rules};

/// A law, which computes nothing. Whatever happens, no two subscriptions of a connection have one identifier or one number, a
/// subscription wants each stream at most once, and no two wants of a connection have one number.
pub fn streams_and_identifiers_differ()
    ensures { (r : Rules) (events : List Event) → AllDiffer r events }
{}
