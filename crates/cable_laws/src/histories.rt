ghost use Rattle.std.specs.List.Sorted.{IsStrictlyIncreasing};
ghost use Rattle.std.specs.Prelude.{◌∷◌, List, map, ℕ, ℤ};
ghost use Rattle.cable_base.specs.declared.rows.Row.{Row};
ghost use Rattle.channel_book.specs.Shapes.{Declared};
ghost use Rattle.cable_model.specs.Connection.{Planner};
ghost use Rattle.cable_model.specs.declared.events.Event.{Event};
ghost use Rattle.cable_model.specs.History.{Rules};
ghost use Rattle.cable_model.specs.HistoryLaws.{ConfirmsBehindDeliver, HistoryWindows, NoneAfterEnd};
ghost use Rattle.cable_model.specs.Journal.{table_journal};
ghost use Rattle.cable_model.specs.Legal.{Legal, LegalTable, stored_plans};
ghost use Rattle.cable_model.specs.Merged.{JournalWindows};
ghost use Rattle.cable_model.specs.Plans.{AlwaysAnswer};
ghost use Rattle.cable_model.specs.Promise.{AllLinked, AllWorked, Windows};
ghost use Rattle.cable_model.specs.Restrictions.{LegalRestrictions};
ghost use Rattle.channel_book.specs.Answers.{callbacks_of};
ghost use Rattle.cable_model.specs.Sequence.{InSequence, InboxKept};
ghost use Rattle.cable_model.specs.Steps.{Step};
ghost use Rattle.cable_model.specs.Table.{TableStep};
ghost use Rattle.cable_model.specs.Trims.{HistoryTrims, TrimsOld};
ghost use Rattle.cable_model.specs.Window.{Reads, window};
ghost use Rattle.cable_laws.specs.EachEvent.{StandsBehind};

/// A law, which computes nothing. After every journal whose pieces are worked one at a time, each as it is planned, a connection is
/// what all its pieces up to the last finished one make of a fresh one, worked in order. Only pieces that no longer stand are skipped.
pub fn pieces_are_worked_in_sequence()
    ensures { (pl : Planner) (c : ℕ) (past : List Step) → AllWorked pl c past → InSequence pl c past }
{}

/// A law, which computes nothing. What waits is kept call by call: what is put waits last, under its place. A Take takes the first.
/// A Finish strikes exactly what no longer stands.
pub fn inbox_is_kept_call_by_call()
    ensures { (pl : Planner) (c : ℕ) (past : List Step) → AllWorked pl c past → InboxKept c past }
{}

/// A law, which computes nothing. Whatever is put, taken and finished in between, the rows that are finished for a hold are those of
/// its window, in order, each once, behind the confirmation and never behind the end. The rows are all that were ever committed, and
/// each turn of the journal found those of them that it was to find.
pub fn finished_rows_are_the_window()
    ensures { (pl : Planner) (reads : Reads) (rows : List Row) (c s w : ℕ) (past : List Step)
        → IsStrictlyIncreasing (0 ∷ map (λ (r : Row). r.id.0) rows) → AllWorked pl c past → AllLinked rows reads past
        → Windows pl (window pl reads c s w past rows) c s w past }
{}

/// A law, which computes nothing. Whatever happens, on any number of nodes and in any order, the rows that are finished for a hold are
/// those of its window, in order, each once, by rising id: a prefix of it, and all of it where no piece waits and no job is out. The
/// confirmation comes before them, and none is finished behind the piece that ends the want. The window is the rows that were committed
/// after the Read of the turn that placed the hold, that the first later turn which reaches them found untrimmed, and at whose place the
/// want still stands. Which hashes a turn asked for plays no part: it asked for those of all names that are held.
pub fn windows_of_histories()
    ensures { (r : Rules) (events : List Event) → HistoryWindows r events }
{}

/// A law, which computes nothing. Once a want has ended, no row is finished for it, whatever happens then.
pub fn no_row_is_finished_after_the_end()
    ensures { (r : Rules) (before after : List Event) → NoneAfterEnd r before after }
{}

/// A law, which computes nothing. A Subscribe that makes a want doesn't say its confirmation. A confirmation that is a piece of its own is
/// finished only where its subscription stands and its Subscribe made a want, and only behind the Deliver of the turn that took the first
/// of these wants.
pub fn confirmations_are_finished_behind_their_deliver()
    ensures { (r : Rules) (events : List Event) → ConfirmsBehindDeliver r events }
{}

/// A law, which computes nothing. Where the callbacks always answer, whatever happens, what a history leaves on each node and in the
/// table is a legal journal: each entry is one that the rules allow at its place. Callbacks that want memory are left out, since want of
/// memory is no answer: no legal journal of a node has a plan that is made of one.
pub fn restrictions_are_legal()
    ensures all { (r : Rules) → AlwaysAnswer r.callbacks → (events : List Event) → LegalRestrictions r events }

    // The table's journal is legal whatever the callbacks answer.
    ensures table { (r : Rules) (events : List Event) → LegalTable r.hash r.page (table_journal r events) }
{}

/// A law, which computes nothing. The callbacks of a book always answer. So every history of a script is one of those.
pub fn books_always_answer()
    ensures { (book : Declared) → AlwaysAnswer (callbacks_of book) }
{}

/// A law, which computes nothing. A row that is gone was taken by a Trim at which it was older than the retention, and the newest row of
/// all commits never goes.
pub fn trims_take_only_old_rows()
    ensures { (r : Rules) (events : List Event) → HistoryTrims r events }
{}

/// A law, which computes nothing. The same of every legal journal of a table.
pub fn legal_trims_take_only_old_rows()
    ensures { (hash : List ℕ → ℤ) (page : ℕ) (table : List TableStep) → LegalTable hash page table → TrimsOld table }
{}

/// A law, which computes nothing. A legal journal is worked one piece at a time, each as the plan says that is stored beside it. So what
/// is said of journals that are worked as planned holds of it.
pub fn legal_journals_are_worked()
    ensures { (c : ℕ) (past : List Step) → Legal past → AllWorked (stored_plans c past) c past }
{}

/// A law, which computes nothing. The rows that are finished for a hold are those of its window, in legal journals of a node and of the
/// table that a merge of their logs ties: so also where threads ran.
pub fn windows_of_journals()
    ensures { JournalWindows }
{}

/// A law, which computes nothing. Behind each event of each history no row of a hold was finished after its end, Trims took only rows that
/// were older than their retention and never the newest, and each confirmation of a subscription with streams came behind the Deliver that
/// took it.
pub fn each_event_keeps_the_promises()
    ensures { (r : Rules) (before : List Event) (e : Event) → StandsBehind r before e }
{}
