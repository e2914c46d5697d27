ghost use Rattle.std.specs.Prelude.{[]};
ghost use Rattle.table_core.specs.Shown.{CommitsFollow, ReadsFollow, RefusalsFollow, Shows, TrimsFollow};

/// A law, which computes nothing. A table without rows shows the empty journal.
pub fn empty_tables_show_nothing()
    ensures { Shows [] 0 [] }
{}

/// A law, which computes nothing. A table that shows a journal shows, after a commit, the journal with this commit.
pub fn commits_follow_the_journal()
    ensures { CommitsFollow }
{}

/// A law, which computes nothing. A table that shows a journal shows, after a trim, the journal with this trim.
pub fn trims_follow_the_journal()
    ensures { TrimsFollow }
{}

/// A law, which computes nothing. What a turn finds in a table that shows a journal is the note of a Read of that journal.
pub fn reads_follow_the_journal()
    ensures { ReadsFollow }
{}

/// A law, which computes nothing. A boot, and a commit, a trim or a read that the keeper refuses, leave what a table shows.
pub fn refusals_follow_the_journal()
    ensures { RefusalsFollow }
{}
