ghost use Rattle.std.specs.List.{AllByRecursion};
ghost use Rattle.std.specs.Prelude.{◌≡◌, ◌++◌, List, ℕ, false};
ghost use Rattle.cable_base.specs.declared.rows.Row.{Row};
ghost use Rattle.cable_model.specs.Connection.{Planner};
ghost use Rattle.cable_model.specs.Journal.{cut, cut_all, is_of};
ghost use Rattle.cable_model.specs.Legal.{Legal};
ghost use Rattle.cable_model.specs.Steps.{Step};
ghost use Rattle.cable_model.specs.Window.{Reads, window};
ghost use Rattle.journal_cuts.specs.Cuts.{AnswersSame, SaysNothing, SaysSame, TurnsSame};

/// A law, which computes nothing. A journal without the entries of some connections says of every other connection what it said with
/// them, and so a node answers the same of it. Of the node's turns it says the same too.
pub fn cut_journals_say_the_same()
    ensures says { (c : ℕ) (ds : List ℕ) (past : List Step) → AllByRecursion (λ d. ¬ (c ≡ d)) ds → SaysSame c (cut_all ds past) past }
    ensures answers { (c : ℕ) (ds : List ℕ) (past : List Step) → AllByRecursion (λ d. ¬ (c ≡ d)) ds → AnswersSame c (cut_all ds past) past }

    // And so is the window of each hold of it: the rows that are to reach it.
    ensures windows { (pl : Planner) (reads : Reads) (c s w : ℕ) (rows : List Row) (ds : List ℕ) (past : List Step)
        → AllByRecursion (λ d. ¬ (c ≡ d)) ds → window pl reads c s w (cut_all ds past) rows ≡ window pl reads c s w past rows }
    ensures turns { (ds : List ℕ) (past : List Step) → TurnsSame (cut_all ds past) past }
{}

/// A law, which computes nothing. A journal without the entries of a connection says of it what one says that never opened it: no want of
/// it waits for a turn, it holds nothing, and nothing was queued on it. That its number was used it doesn't say.
pub fn nothing_is_said_of_a_cut_connection()
    ensures { (d : ℕ) (past : List Step) → SaysNothing d (cut d past) }
{}

/// A law, which computes nothing. A legal journal without the entries of some connections is legal.
pub fn cut_journals_are_legal()
    ensures { (ds : List ℕ) (past : List Step) → Legal past → Legal (cut_all ds past) }
{}

/// A law, which computes nothing. Whether a connection is cut before a journal goes on or behind that, it is the same: of what comes since,
/// its entries are cut, and with those of others the journal goes on.
pub fn cuts_go_on()
    ensures since { (d : ℕ) (more past : List Step) → cut d (more ++ past) ≡ cut d more ++ cut d past }
    ensures others { (d : ℕ) (more past : List Step) → AllByRecursion (λ e. is_of d e ≡ false) more → cut d (more ++ past) ≡ more ++ cut d past }
{}
