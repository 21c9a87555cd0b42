// What the definition of a session over a stream says, beside what the code meets.
ghost use Rattle.lsp_session.specs.Stream.{NothingFollowsAnExit};

/// A law. After an exit the session stays as it is: later messages change nothing and get no reply.
pub fn nothing_follows_an_exit()
    ensures { NothingFollowsAnExit }
{}
