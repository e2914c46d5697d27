ghost use Rattle.std.specs.Prelude.{◌≡◌, ◌++◌, List, ℕ, false};
ghost use Rattle.cable_model.specs.Legal.{Legal};
ghost use Rattle.cable_model.specs.Possible.{is_opened};
ghost use Rattle.cable_model.specs.Steps.{Step};
ghost use Rattle.journal_cuts.specs.Cuts.{IsAtRest, SaysSame, SaysWhatIsLeft, begun_again};

/// A law, which computes nothing. Where no connection of a node is live and no turn is out, a journal that begins again with the node's
/// present lower end says what is left of the node.
pub fn journals_that_begin_again_say_what_is_left()
    ensures { (past : List Step) → Legal past → IsAtRest past → SaysWhatIsLeft (begun_again past) past }
{}

/// A law, which computes nothing. A journal that began again says of each connection that was never opened before what the old journal
/// says, and what comes since is legal on it where it is on the old one.
pub fn journals_go_on_from_a_new_beginning()
    ensures says { (c : ℕ) (more past : List Step) → Legal past → is_opened c past ≡ false → SaysSame c (more ++ begun_again past) (more ++ past) }
    ensures legal { (more past : List Step) → Legal past → IsAtRest past → Legal (more ++ past) → Legal (more ++ begun_again past) }
{}
