//! Laws of frames. Each is the contract of a function without a body.

ghost use Rattle.hdl_frame.specs.Laws.{OneCut, EachIsCut, PiecesJoin, ChunksJoin, OneFrame, OneMessage, MessageIsJoined, JoinedIsMessage, NoneIsMissing};
ghost use Rattle.hdl_frame.specs.Spelling.{SpelledIsFrame, FrameIsSpelled};

/// There is at most one way to cut a stream.
pub fn one_cut()
    ensures { OneCut }
{}

/// There is a way to cut each stream.
pub fn each_is_cut()
    ensures { EachIsCut }
{}

/// A stream in two parts is cut like the whole: first the frames of the first part, then those of its rest followed by
/// the second part.
pub fn pieces_join()
    ensures { PiecesJoin }
{}

/// A stream in any number of chunks is cut like the whole.
pub fn chunks_join()
    ensures { ChunksJoin }
{}

/// If octets are the encoding of a frame, they can be read as a frame with that envelope and payload.
pub fn spelled_is_frame()
    ensures { SpelledIsFrame }
{}

/// The octets of a frame are those of its envelope and then its payload.
pub fn frame_is_spelled()
    ensures { FrameIsSpelled }
{}

/// Octets are the encoding of at most one frame.
pub fn one_frame()
    ensures { OneFrame }
{}

/// Pieces make at most one message.
pub fn one_message()
    ensures { OneMessage }
{}

/// The message that pieces make is the concatenation of their payloads by number.
pub fn message_is_joined()
    ensures { MessageIsJoined }
{}

/// If the payloads have their lengths, their concatenation by number is the message that the pieces make.
pub fn joined_is_message()
    ensures { JoinedIsMessage }
{}

/// If the pieces don't make a message, the piece of some number is missing.
pub fn none_is_missing()
    ensures { NoneIsMissing }
{}
