//! Laws of legal histories. Each function is there for its contract alone.
ghost use Rattle.history_check.specs.Legal.{BeginningsAreLegal, ShortestIsNext};
ghost use Rattle.history_check.specs.LeftOut.{ValuesMayBeLeftOut};
ghost use Rattle.history_check.specs.Levels.{LevelsPass, LevelsRefute, MovesMayWait};

/// Each beginning of a legal history is legal.
pub fn beginnings_are_legal()
    ensures { BeginningsAreLegal }
{}

/// Where so many events are legal and one more is not, these are the shortest beginning that is not.
pub fn shortest_is_next()
    ensures { ShortestIsNext }
{}

/// Where an event may be recorded at once, the moves before it may wait.
pub fn moves_may_wait()
    ensures { MovesMayWait }
{}

/// Who survives from a level, each stage of which is handled, survives from the next.
pub fn levels_pass()
    ensures { LevelsPass }
{}

/// Where levels pass the events, from the opening on, until one is empty, the history is not legal.
pub fn levels_refute()
    ensures { LevelsRefute }
{}

/// Values may be left out of a legal history of a queue without a capacity.
pub fn values_may_be_left_out()
    ensures { ValuesMayBeLeftOut }
{}
