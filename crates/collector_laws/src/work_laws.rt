// Laws of jobs and pieces. Each is proved for all lists of events, and its function does nothing.
ghost use Rattle.collector_laws.specs.WorkLaws.{PiecesMakeTheirPathsHeld, RightPiecesAreTaken, JobsMakeTheirPathsOut, NoJobChangesNothing, OnlyJobsMakePathsOut, CompleteIsNoneWantedAndNoneOut, RoundsAreForTheFirstWanted, RoundsMakeTheirPathsHeld, RoundsChangeNoText, RoundsLeaveNoneOut, RoundsEnd, RoundsComplete};

use crate::text_laws::texts_after_events;
use piece_collector::next_jobs;

/// A law: a job makes the first wanted path out, and changes nothing where no path is wanted; no other event makes a path out.
/// A piece with the current stamp and text of a known path makes the path held, and is taken where the path had none. Each
/// other path stands as it did. The board is complete exactly where no path is wanted and none is out.
pub fn jobs_and_pieces()
    ensures piece { PiecesMakeTheirPathsHeld }
    ensures taken { RightPiecesAreTaken }
    ensures job { JobsMakeTheirPathsOut }
    ensures no_job { NoJobChangesNothing }
    ensures out { OnlyJobsMakePathsOut }
    ensures complete { CompleteIsNoneWantedAndNoneOut }
{
    next_jobs();
}

/// A law: a round of work is a job, and the right piece for it, if one was given. It makes the first wanted path held, leaves
/// each other path as it stands, and changes no text. As many rounds as texts were set leave no path wanted, and they make the
/// board complete where no path was out at first.
pub fn rounds_of_work()
    ensures jobs { RoundsAreForTheFirstWanted }
    ensures held { RoundsMakeTheirPathsHeld }
    ensures texts { RoundsChangeNoText }
    ensures none_out { RoundsLeaveNoneOut }
    ensures end { RoundsEnd }
    ensures complete { RoundsComplete }
{
    next_jobs();
    texts_after_events();
    jobs_and_pieces();
}
