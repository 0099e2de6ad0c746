//! Laws of partial messages. Each is the contract of a function without a body.

ghost use Rattle.hdl_pool.specs.Laws.{NothingCame, KeptIsCollected, RepeatedIsIgnored, WholeIsMessage, MessageIsWhole, TakenIsSoFar, OthersStay, FreedIsGone, AtMostFour};

/// Before its first piece, nothing of a message came.
pub fn nothing_came()
    ensures { NothingCame }
{}

/// A kept piece is the last that came.
pub fn kept_is_collected()
    ensures { KeptIsCollected }
{}

/// If the number of a piece came before, the piece is ignored, and the pieces that came stay the same.
pub fn repeated_is_ignored()
    ensures { RepeatedIsIgnored }
{}

/// A whole message is the message that its pieces make.
pub fn whole_is_message()
    ensures { WholeIsMessage }
{}

/// If the pieces make a message together with a last one, the message is whole.
pub fn message_is_whole()
    ensures { MessageIsWhole }
{}

/// After a piece, what came of its message is what came before and the piece.
pub fn taken_is_so_far()
    ensures { TakenIsSoFar }
{}

/// A piece that displaces nothing changes no other message of its lane.
pub fn others_stay()
    ensures { OthersStay }
{}

/// A message that was freed isn't found.
pub fn freed_is_gone()
    ensures { FreedIsGone }
{}

/// A lane has at most four partial messages.
pub fn at_most_four()
    ensures { AtMostFour }
{}
