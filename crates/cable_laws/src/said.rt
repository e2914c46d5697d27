ghost use Rattle.std.specs.Prelude.{List};
ghost use Rattle.cable_model.specs.declared.events.Event.{Event};
ghost use Rattle.cable_model.specs.History.{Rules};
ghost use Rattle.cable_laws.specs.Said.{ConfirmationsComeOfConfirmations, EventsSayRows, HistoryWorked, RowsAreSaid, RowsFollowConfirmation, RowsFollowConfirmationText};

/// A law, which computes nothing. Whatever happens, the pieces of each connection are worked one at a time, each as the callbacks plan it.
/// So they are worked in sequence, and the inbox is kept call by call.
pub fn histories_are_worked()
    ensures { (r : Rules) (events : List Event) → HistoryWorked r events }
{}

/// A law, which computes nothing. A row that is finished is said: its payload is queued as the message of its subscription, under the
/// identifier that stands there. It says nothing else, casts nothing and changes nothing. The event that finishes it says that line alone.
pub fn finished_rows_are_said()
    ensures journal { (r : Rules) (events : List Event) → RowsAreSaid r events }
    ensures event { (r : Rules) (events : List Event) → EventsSayRows r events }
{}

/// A law, which computes nothing. Before a row is finished its subscription was confirmed: by a confirmation that was finished, or by its
/// Subscribe, where that made no want.
pub fn rows_follow_their_finished_confirmation()
    ensures piece { (r : Rules) (events : List Event) → RowsFollowConfirmation r events }

    // Either said the confirmation of the identifier that the row is said under.
    ensures text { (r : Rules) (events : List Event) → RowsFollowConfirmationText r events }
{}

/// A law, which computes nothing. What is finished says a confirmation only where it is one, of the subscription that stands under the
/// identifier, or a Subscribe of the identifier that wants no stream. A message, a rejection or an end is none, whatever it holds.
pub fn confirmation_texts_come_of_confirmations()
    ensures { (r : Rules) (events : List Event) → ConfirmationsComeOfConfirmations r events }
{}
