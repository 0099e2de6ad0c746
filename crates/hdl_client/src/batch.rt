//! Many requests on one connection, several of them in flight.

ghost use Rattle.std.specs.Prelude.{◌≡◌, ◌↔◌, ◌<◌, [], false, IsTrue, All, IfOk, OnOk, IfSome, MatchOption, option_copied};
ghost use Rattle.hdl_msg.specs.Reply.{reply_seen};
ghost use Rattle.hdl_client.specs.Asking.{IsUnchallenged};
ghost use Rattle.hdl_client.specs.Batch.{OrderMatters, IsApart, AreApart, frames_awaited, key_of, AnswersFor, Classifies};
ghost use Rattle.hdl_client.specs.Outcomes.{IsTaken, IsSentFor, GoesOn, IsWhole};

use crate::about::check_answer;
use crate::challenge::{Key, challenge_answer};
use crate::exchange::receive;
use crate::fault::ClientFault;
use crate::reply::Reply;
use crate::session::Session;
use crate::task::{Batch, Outcomes, Task};
use crate::transport::Transport;
use hdl_limits::CHALLENGES_MAX;
use hdl_msg::ReplyView;
use std::alloc::Global;

/// A request that waits for its reply: its task, the RequestId of what was sent last for it, and whether that answers a challenge.
#[derive(Clone, Copy)]
struct PendingRequest<'b> {
    task: &'b Task,
    request: u32,
    is_answer: bool,
}

/// Whether two tasks have to be done one after the other: they are of one handle, or one of them flies alone.
fn order_matters(one: &Task, other: &Task) -> bool
    ensures { IsTrue result ↔ OrderMatters one.now other.now }
{
    one.request.is_alone()
        || other.request.is_alone()
        || one.request.handle() == other.request.handle()
}

/// Whether a task may fly with those in flight: with none of them its order matters.
fn may_send(next: &Task, in_flight: &[PendingRequest<'_>]) -> bool
    ensures { IsTrue result ↔ All (IsApart next.now) in_flight.now }
{
    in_flight
        .iter()
        .all(|pending| !order_matters(pending.task, next))
}

/// The key that stands above a task in the batch's text, if one does.
fn key_of<'b>(keys: &'b [Key], task: &Task) -> Option<&'b Key>
    ensures { option_copied result ≡ key_of keys.now task.now }
{
    let place = task.key?;
    keys.get(place)
}

/// What a frame that came is to a flight.
#[derive(Drop)]
enum ReplyAction {
    /// The reply, with this code.
    Done(u32),
    /// A challenge, and the message that answers it.
    Challenge(Vec<u8>),
}

/// The message that answers a reply to this flight by the task's key, where that is a challenge. One is answered once.
fn answer_by_key(
    alloc: Global,
    keys: &[Key],
    pending: &PendingRequest<'_>,
    reply: &ReplyView<'_>,
) -> Result<Option<Vec<u8>>, ClientFault>
    ensures { IfOk result (λ r. MatchOption r
        (pending.now.is_answer ≡ false → IfSome (key_of keys.now pending.now.task.now) (λ _. IsUnchallenged (reply_seen reply.now)))
        (λ v. (pending.now.is_answer ≡ false) × AnswersFor keys.now pending.now.task.now (reply_seen reply.now) v.items)) }
{
    if pending.is_answer {
        return Ok(None);
    }
    match key_of(keys, pending.task) {
        Some(key) => challenge_answer(alloc, key, pending.task.request.octets(), reply),
        None => Ok(None),
    }
}

/// What a reply is to the flight that it answers. One that isn't a challenge to be answered has to be about what the task asks.
fn classify_reply(
    alloc: Global,
    keys: &[Key],
    pending: &PendingRequest<'_>,
    reply: &ReplyView<'_>,
) -> Result<ReplyAction, ClientFault>
    ensures { IfOk result (λ landing. Classifies keys.now pending.now (reply_seen reply.now) landing) }
{
    if let Some(answer) = answer_by_key(alloc, keys, pending, reply)? {
        return Ok(ReplyAction::Challenge(answer));
    }
    let request = &pending.task.request;
    check_answer(alloc, request.wire(), request.octets(), reply)?;
    Ok(ReplyAction::Done(reply.header.response_code))
}

/// Takes the flight of the request with this number out of those under way.
fn take_pending<'b>(
    in_flight: &mut Vec<PendingRequest<'b>>,
    request: u32,
) -> Result<PendingRequest<'b>, ClientFault>
    requires { AreApart in_flight.old.items }
    ensures apart { AreApart in_flight.new.items }
    ensures free { IfOk result (λ pending. All (IsApart pending.task.now) in_flight.new.items) }
    ensures taken { IfOk result (λ pending. IsTaken in_flight.old.items pending in_flight.new.items) }
    ensures own { IfOk result (λ pending. pending.request ≡ request) }
{
    match in_flight
        .iter()
        .position(|pending| pending.request == request)
    {
        Some(place) => Ok(in_flight.remove(place)),
        None => Err(ClientFault::OtherRequest),
    }
}

impl<S: Transport> Session<S> {
    /// Sends a message for a task, which is under way then.
    fn send_task<'b>(
        &mut self,
        in_flight: &mut Vec<PendingRequest<'b>>,
        task: &'b Task,
        session: u32,
        message: &[u8],
        is_answer: bool,
    ) -> Result<(), ClientFault>
        requires apart { AreApart in_flight.old.items }
        requires free { All (IsApart task.now) in_flight.old.items }
        ensures apart { AreApart in_flight.new.items }
        ensures launched { OnOk result (IsSentFor S.Transport self.old.stream in_flight.old.items task.now session message.now is_answer self.new.stream in_flight.new.items) }
    {
        let request = self.send_next(session, message)?;
        in_flight.push(PendingRequest {
            task,
            request,
            is_answer,
        })?;
        Ok(())
    }

    /// Takes one frame, and answers the challenge or tells the outcome.
    fn receive_one<'b, O: Outcomes>(
        &mut self,
        keys: &[Key],
        in_flight: &mut Vec<PendingRequest<'b>>,
        outcomes: &mut O,
    ) -> Result<(), ClientFault>
        requires { AreApart in_flight.old.items }
        ensures apart { AreApart in_flight.new.items }
        ensures goes_on { OnOk result (GoesOn S.Transport O.notes keys.now self.old.stream outcomes.old in_flight.old.items self.new.stream outcomes.new in_flight.new.items) }
        ensures due { OnOk result (frames_awaited in_flight.new.items < frames_awaited in_flight.old.items) }
    {
        let frame = receive(self.alloc, &mut self.stream)?;
        let pending = take_pending(in_flight, frame.envelope.request)?;
        let reply = Reply::of_frame(pending.task.request.wire(), frame, pending.request)?;
        let view = reply.view();
        match classify_reply(self.alloc, keys, &pending, &view)? {
            ReplyAction::Done(code) => {
                outcomes.note_reply(pending.task, code, &view);
                Ok(())
            }
            ReplyAction::Challenge(answer) => {
                let session = reply.envelope().session;
                self.send_task(in_flight, pending.task, session, &answer, true)?;
                Ok(())
            }
        }
    }

    /// Takes replies until the task may fly with those that are in flight then, and there is room for it: a service keeps so many challenges.
    fn wait_for_room<'b, O: Outcomes>(
        &mut self,
        keys: &[Key],
        in_flight: &mut Vec<PendingRequest<'b>>,
        outcomes: &mut O,
        task: &Task,
    ) -> Result<(), ClientFault>
        requires { AreApart in_flight.old.items }
        ensures apart { AreApart in_flight.new.items }
        ensures free { OnOk result (All (IsApart task.now) in_flight.new.items) }
        ensures goes_on { OnOk result (GoesOn S.Transport O.notes keys.now self.old.stream outcomes.old in_flight.old.items self.new.stream outcomes.new in_flight.new.items) }
    {
        'replies: while in_flight.len() >= CHALLENGES_MAX || !may_send(task, in_flight) {
            self.receive_one(keys, in_flight, outcomes)?;
        }
        Ok(())
    }

    /// Takes the replies to all that are in flight.
    fn receive_all<'b, O: Outcomes>(
        &mut self,
        keys: &[Key],
        in_flight: &mut Vec<PendingRequest<'b>>,
        outcomes: &mut O,
    ) -> Result<(), ClientFault>
        requires { AreApart in_flight.old.items }
        ensures none { OnOk result (in_flight.new.items ≡ []) }
        ensures goes_on { OnOk result (GoesOn S.Transport O.notes keys.now self.old.stream outcomes.old in_flight.old.items self.new.stream outcomes.new in_flight.new.items) }
    {
        'replies: while !in_flight.is_empty() {
            self.receive_one(keys, in_flight, outcomes)?;
        }
        Ok(())
    }

    /// Asks all of a batch, and reports the outcome of each request as it comes. Requests whose order may matter aren't in flight
    /// together: those of one handle, and what flies alone. After a fault it isn't known what became of requests whose outcome
    /// wasn't reported.
    pub fn run_batch<O: Outcomes>(
        &mut self,
        batch: &Batch,
        outcomes: &mut O,
    ) -> Result<(), ClientFault>
        ensures whole { OnOk result (IsWhole S.Transport O.notes batch.now.keys.items batch.now.tasks.items self.old.stream outcomes.old self.new.stream outcomes.new) }
    {
        let mut in_flight = Vec::with_capacity(self.alloc, CHALLENGES_MAX)?;
        for place in 0..batch.tasks.len() {
            let task = &batch.tasks[place];
            self.wait_for_room(&batch.keys, &mut in_flight, outcomes, task)?;
            self.send_task(&mut in_flight, task, 0, task.request.octets(), false)?;
        }
        self.receive_all(&batch.keys, &mut in_flight, outcomes)?;
        Ok(())
    }
}
