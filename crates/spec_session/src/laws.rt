//! Laws of runs, and of the sessions of the mode `serve`. Each is the contract of a function with an
//! empty body.
ghost use Rattle.spec_session.specs.Sessions.{serve_mode};
ghost use Rattle.spec_session.specs.Laws.{OneRun, OneSession, RepliesComeFirst};
ghost use Rattle.spec_session.specs.Laws.{RepliesThenLastLine, RefusalIsAll};
ghost use Rattle.spec_session.specs.Beginnings.{OneListOfReplies, FirstRepliesComeFirst};
ghost use Rattle.spec_session.specs.Beginnings.{SomeReplies};

/// Commands have at most one run from a state: one reply to each, and one state behind it.
pub fn one_run()
    ensures { OneRun }
{}

/// An input has at most one session: the bytes that it writes, and its status.
pub fn one_session()
    ensures { OneSession serve_mode }
{}

/// The replies to the commands that an input begins with are what its session writes first, where
/// the grammar among them is accepted. So replies may be written before the next command is read.
pub fn replies_come_first()
    ensures { RepliesComeFirst serve_mode }
{}

/// Behind the replies to all commands of a script its session writes the last line, and no more.
/// Its status is that of the script's end: 0, or 3 where the script is broken.
pub fn replies_then_last_line()
    ensures { RepliesThenLastLine serve_mode }
{}

/// Commands have at most one list of replies from a state.
pub fn one_list_of_replies()
    ensures { OneListOfReplies }
{}

/// The replies to the commands that others begin with are the first of the replies to all. So what
/// was written early does not depend on what comes behind.
pub fn first_replies_come_first()
    ensures { FirstRepliesComeFirst }
{}

/// Under an accepted grammar no commands are without replies. As of sessions, the law gives no
/// witness, but makes statements about all lists of replies non-vacuous.
pub fn some_replies()
    ensures { SomeReplies }
{}

/// Where the grammar is refused, its refusal is all that the session writes, and its status is 2.
pub fn refusal_is_all()
    ensures { RefusalIsAll serve_mode }
{}
