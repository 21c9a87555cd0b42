// Laws of the core. Each is proved for all histories, and its function does nothing.
ghost use Rattle.lsp_laws.specs.CoreLaws.{BoardFollowsTheSession, WorkedMessagesAreProcessed};

use collector_laws::{jobs_and_pieces, rounds_of_work, texts_after_events, texts_of_events};
use work_files::documents_change_one_text;

/// A law: whatever messages and work came, the board of a core has the texts of the workspace that the messages leave that have
/// begun, each at its path, and no other. So an analysis of a complete board is that of the workspace of this moment.
pub fn board_follows_the_session()
    ensures { BoardFollowsTheSession }
{
    texts_after_events();
    texts_of_events();
    documents_change_one_text();
}

/// A law: a run of a core over messages, each followed by all work, gives the replies of the sequential session, processes every
/// message, and gives no verdict.
pub fn worked_messages_are_processed()
    ensures { WorkedMessagesAreProcessed }
{
    jobs_and_pieces();
    rounds_of_work();
}
