//! Laws over what happens on a connection, each the contract of a function without a body.

ghost use Rattle.hdl_overflow_lane.specs.Laws.{HasItsOwn, HandsInOrder, HandsAll, WritesInOrder, SaysReply};

/// What a connection has under way is what its own steps made of a new one, whatever happened to the others of its book.
pub fn each_has_its_own()
    ensures { HasItsOwn }
{}

/// What is handed out of a connection is a beginning of the frames of what was read on it, and all of them where no whole frame is left.
pub fn handed_in_order()
    ensures beginning { HandsInOrder }
    ensures whole { HandsAll }
{}

/// What is written on a connection and what is owed there are what was said to it, in order.
pub fn written_in_order()
    ensures { WritesInOrder }
{}

/// The datagrams of a reply of the service say that reply whole.
pub fn pieces_say_reply()
    ensures { SaysReply }
{}
