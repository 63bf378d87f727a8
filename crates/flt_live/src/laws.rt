//! What follows for the lives of a session.
ghost use Rattle.flt_live.specs.Laws.{LivesArePlayed, SessionsKeep, StatusesTell};

/// If the first life of a session finds a sound image, so does each life that follows, if the shelf reveals what it keeps; and no life
/// begins with an older generation than the one that was acknowledged last in the lives before it.
pub fn sessions_keep()
    ensures { SessionsKeep }
{}

/// Each status that is due is given for its causes alone.
pub fn statuses_tell()
    ensures { StatusesTell }
{}

/// Each whole life of a session is played as a life of a run is, but for the places of its answers, which it does not have: there are
/// places for them with which the journals of the status machine and of the queue have the calls of its steps in order and no others, and
/// each answer is that of its machine at its place, or the store's. So it is with all its steps: calls, saves, posts, questions, drains and
/// reads of blocks. A dark life and one that was refused have no call.
pub fn lives_are_played()
    ensures { LivesArePlayed }
{}
