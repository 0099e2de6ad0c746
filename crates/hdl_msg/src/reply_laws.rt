//! A law over replies, the contract of a function without a body.

ghost use Rattle.hdl_msg.specs.ReplyLaws.{NoReplyBeginsAnother};

/// No reply begins another, by either layout of values.
pub fn no_reply_begins_another()
    ensures { NoReplyBeginsAnother }
{}
