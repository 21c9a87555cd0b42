// Laws of the definitions that the contracts cite. Each is a function with nothing to do, whose clause is the law.
ghost use Rattle.piece_collector.specs.Laws.{LastChangeIsTheLatest, OutIsGivenAndNotFailed, JobsGoToTheFirstWanted};

/// A law: a history is what came since the last change of a path and what goes up to it, which is nothing where the
/// path was never set or removed.
pub fn last_changes()
    ensures { LastChangeIsTheLatest }
{}

/// A law: by some entries a path is out where a job of it is among them and no failure of it with its stamp came after.
pub fn jobs_out()
    ensures { OutIsGivenAndNotFailed }
{}

/// A law: the path that the next job is for is the first wanted one, or none where none is wanted, and no other is.
pub fn next_jobs()
    ensures { JobsGoToTheFirstWanted }
{}
