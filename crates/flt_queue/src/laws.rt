//! What becomes of the jobs that are posted.
ghost use Rattle.flt_queue.specs.Laws.{AskTellsLast, FewWait, FirstInFirstOut, HandedOutIsDue, OneOfABlock, PostsAreAnswered, RefusedChangesNothing};

/// The accepted jobs of a kind are those that were handed out and after them those that wait: each job that is handed out was
/// posted, none is handed out twice, none is lost, and of each kind the oldest is handed out first.
pub fn first_in_first_out()
    ensures { FirstInFirstOut }
{}

/// One job of a block waits where the block is pending and its job is not taken, and else none.
pub fn one_of_a_block()
    ensures { OneOfABlock }
{}

/// A job that is handed out is of a block that is pending, and of which no job is taken and not done.
pub fn handed_out_is_due()
    ensures { HandedOutIsDue }
{}

/// A call that is refused, or that finds no job, changes nothing of the jobs that wait and of the blocks.
pub fn refused_changes_nothing()
    ensures { RefusedChangesNothing }
{}

/// At most 32 jobs wait.
pub fn few_wait()
    ensures { FewWait }
{}

/// Asked for its last result, a block answers that it is pending after a post that was accepted, and after a result that counted it
/// answers what that result said; before the first post there is none.
pub fn ask_tells_last()
    ensures { AskTellsLast }
{}

/// A post of a block that is pending is refused for that, and another one exactly where 32 jobs wait.
pub fn posts_are_answered()
    ensures { PostsAreAnswered }
{}
