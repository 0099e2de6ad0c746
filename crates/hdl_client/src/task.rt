//! A batch, and who is told of its outcomes.

ghost use Rattle.std.specs.Prelude.{◌≡◌, ℕ};
ghost use Rattle.hdl_msg.specs.Reply.{reply_seen};
ghost use Rattle.hdl_client.specs.About.{IsAnswerTo};
ghost use Rattle.hdl_client.specs.declared.task.Task.{Task};

use crate::challenge::Key;
use crate::message::RequestMessage;
use hdl_msg::ReplyView;

/// A request of a batch.
#[derive(Drop)]
pub struct Task {
    /// The line of the text that it begins at, from 1.
    pub line: usize,
    /// Its operation and handle, as it was written.
    pub title: String,
    pub request: RequestMessage,
    /// Which of the batch's keys answers its challenge.
    pub key: Option<usize>,
}

/// The requests of a text, in its order.
#[derive(Drop)]
pub struct Batch {
    pub keys: Vec<Key>,
    pub tasks: Vec<Task>,
}

/// Receives the outcome of each request of a batch, as it comes.
pub trait Outcomes {
    /// What a task's code makes of it.
    ghost notes: { Self → Task → ℕ → Self → Type 0 };

    /// The reply to this task came, with this code. It is about what the task asks.
    fn note_reply(&mut self, task: &Task, code: u32, reply: &ReplyView<'_>)
        requires own_code { code ≡ (reply_seen reply.now).header.response_code }
        requires answers { IsAnswerTo task.now.request.wire task.now.request.octets (reply_seen reply.now) }
        ensures noted { notes self.old task.now code self.new };
}
