//! Following the frames of a lane, and the replies to them.

ghost use Rattle.std.specs.Prelude.{◌≡◌, ◌<◌, true, None, IfSome, IsSome, IsTrue, option_map};
ghost use Rattle.hdl_audit.specs.ReplySummary.{answer_of, changes, ends_change};

use crate::answer::ReplySummary;
use crate::entry::{Entry, KeyName};
use crate::question::{Detail, RequestKind, UNKNOWN, UnansweredFrame, copy_of};
use std::alloc::{AllocError, Global};
use std::collections::VecDeque;

/// The most frames that are followed without an answer.
const UNANSWERED: usize = 4096;

/// The most challenges of changes that are followed. A lane has eight.
const CHALLENGES: usize = 8;

/// A change that was challenged.
#[derive(Drop)]
struct Challenged {
    peer: u16,
    /// The SessionId of the challenge.
    session: u32,
    operation: u32,
    /// The handle, where names are followed.
    handle: Option<Vec<u8>>,
    ghost changes: { changes operation ≡ true },
}

/// A frame of a reply, and what is known of the request that it answers.
#[derive(Drop)]
pub struct Followed {
    /// What the reply in the frame says.
    pub answer: ReplySummary,
    /// The number of the operation that it answers: where it names none that of its request, if that is certain, and else 0.
    pub operation: u32,
    /// The entry of the change that was accepted or refused by it.
    pub entry: Option<Entry>,
}

/// Follows the frames of the clients of a lane, and the replies to them, in the order in which they pass.
#[derive(Drop)]
pub struct Follower {
    alloc: Global,
    detail: Detail,
    unanswered: VecDeque<UnansweredFrame>,
    challenged: Vec<Challenged>,
    /// Whether it isn't certain any more which frame is answered next.
    is_lost: bool,
}

impl Follower {
    ghost use Rattle.std.specs.Prelude.{◌⊎◌, ◌==◌, ◌&&◌, [], IfOk, Ok, Some};
    ghost use Rattle.std.specs.List.{position};
    ghost use Rattle.hdl_audit.specs.RequestKind.{is_consistent};
    ghost use Rattle.hdl_audit.specs.Naming.{IsAsked, IsChallenged, IsOwnChallenge, IsPending, NamesBy, NamesNothing, NamesOwn, OnlyGains, handle_octets};

    /// A follower at the beginning of a connection, or of a lane of datagrams.
    pub fn new(alloc: Global, detail: Detail) -> Follower
        ensures frames { result.unanswered.items ≡ [] }
        ensures challenged { result.challenged.items ≡ [] }
    {
        Follower {
            alloc,
            detail,
            unanswered: VecDeque::new(alloc),
            challenged: Vec::new(alloc),
            is_lost: false,
        }
    }

    /// Forgets requests without a reply. For a lane that receives one frame at a time: earlier requests have their replies, or get none.
    pub fn forget_unanswered(&mut self)
        ensures frames { self.new.unanswered.items ≡ [] }
        ensures challenged { self.new.challenged.items ≡ self.old.challenged.items }
    {
        self.unanswered.clear();
    }

    /// A frame came that can't be followed, so it isn't certain any more which one is answered next.
    pub fn mark_uncertain(&mut self)
        ensures frames { self.new.unanswered.items ≡ self.old.unanswered.items }
        ensures challenged { self.new.challenged.items ≡ self.old.challenged.items }
    {
        self.is_lost = true;
    }

    /// A frame came from a peer.
    pub fn note_request(&mut self, peer: u16, frame: &[u8])
        ensures frames { OnlyGains self.old.unanswered.items (λ question. question.peer ≡ peer) self.new.unanswered.items }
        ensures challenged { self.new.challenged.items ≡ self.old.challenged.items }
    {
        let question = self.question(peer, frame);
        self.put(question);
    }

    /// What a frame asks, which a peer sent: nothing, where it has no envelope.
    pub fn question(&self, peer: u16, frame: &[u8]) -> Result<Option<UnansweredFrame>, AllocError>
        ensures own { IfOk result (λ asked. IfSome asked (λ question. question.peer ≡ peer)) }
    {
        UnansweredFrame::of(self.alloc, self.detail, peer, frame)
    }

    /// A frame came that asks this. One for which memory was refused can't be followed.
    pub fn put(&mut self, question: Result<Option<UnansweredFrame>, AllocError>)
        ensures frames { OnlyGains self.old.unanswered.items (λ one. question ≡ Ok (Some one)) self.new.unanswered.items }
        ensures challenged { self.new.challenged.items ≡ self.old.challenged.items }
    {
        if self.is_lost || self.unanswered.len() >= UNANSWERED {
            self.is_lost = true;
            return;
        }
        match question {
            Ok(Some(question)) => self.is_lost = self.unanswered.push_back(question).is_err(),
            Ok(None) => {}
            Err(_) => self.is_lost = true,
        }
    }

    /// The place of the frame that a reply with this RequestId answers, where that is certain: the first whole one, or a piece before it.
    fn place_of(&self, request: u32) -> Option<usize> {
        let whole = self
            .unanswered
            .iter()
            .position(|question| !question.is_piece());
        let pieces = whole.unwrap_or(self.unanswered.len());
        let mut pieces = self.unanswered.iter().take(pieces);
        let piece = pieces.position(|question| question.request == request);
        let whole = match whole {
            Some(place) if self.is_of(place, request) => Some(place),
            _ => None,
        };
        match (piece, whole) {
            (Some(_), Some(_)) => None,
            (Some(place), None) => Some(place),
            (None, place) => place,
        }
    }

    /// Whether the frame at this place has this RequestId.
    fn is_of(&self, place: usize, request: u32) -> bool {
        match self.unanswered.get(place) {
            Some(question) => question.request == request,
            None => false,
        }
    }

    /// Takes what a reply with this RequestId answers, if this peer asked it. Where that isn't certain nothing is followed any more.
    fn take_request_kind(&mut self, peer: u16, request: u32) -> RequestKind
        ensures asked { (result ≡ RequestKind.Other 0) ⊎ IsAsked self.old.unanswered.items peer result }
        ensures consistent { is_consistent result ≡ true }
        ensures challenged { self.new.challenged.items ≡ self.old.challenged.items }
    {
        if self.is_lost {
            return UNKNOWN;
        }
        let Some(place) = self.place_of(request) else {
            self.is_lost = true;
            return UNKNOWN;
        };
        for _ in 0..place {
            self.unanswered.pop_front();
        }
        match self.unanswered.pop_front() {
            Some(question) if question.peer == peer => question.request_kind,
            _ => UNKNOWN,
        }
    }

    /// A change was challenged.
    fn put_challenged(&mut self, challenged: Challenged)
        ensures challenged { OnlyGains self.old.challenged.items (λ one. one ≡ challenged) self.new.challenged.items }
    {
        if self.challenged.len() >= CHALLENGES {
            self.challenged.remove(0);
        }
        if self.challenged.push(challenged).is_err() {
            self.is_lost = true;
        }
    }

    /// The place of the change with this challenge.
    fn place_of_challenge(&self, peer: u16, session: u32) -> Option<usize>
        ensures place { result ≡ position (λ one. one.peer == peer && one.session == session) self.now.challenged.items }
    {
        let mut all = self.challenged.iter();
        all.position(|one| one.peer == peer && one.session == session)
    }

    /// A copy of a handle, if one is named.
    fn copy_of_handle(&self, handle: &Option<Vec<u8>>) -> Result<Option<Vec<u8>>, AllocError>
        ensures { IfOk result (λ copied. handle_octets copied ≡ handle_octets handle.now) }
    {
        match handle {
            Some(handle) => Ok(Some(copy_of(self.alloc, handle)?)),
            None => Ok(None),
        }
    }

    /// The change whose challenge was answered by this reply's request. It stays where the reply says busy.
    fn take_challenged(
        &mut self,
        peer: u16,
        session: u32,
        answer: ReplySummary,
    ) -> Option<Challenged>
        ensures own { IfSome result (λ one. IsPending self.old.challenged.items peer session one.operation (handle_octets one.handle)) }
        ensures kept { OnlyGains self.old.challenged.items (λ _. ⊥) self.new.challenged.items }
    {
        let place = self.place_of_challenge(peer, session)?;
        if place >= self.challenged.len() {
            return None;
        }
        if !answer.is_busy() {
            return Some(self.challenged.remove(place));
        }
        let kept = self.challenged.get(place)?;
        match self.copy_of_handle(&kept.handle) {
            Ok(handle) => Some(Challenged {
                peer,
                session,
                operation: kept.operation,
                handle,
            }),
            Err(_) => None,
        }
    }

    /// The number of the operation that a reply to this matter answers.
    fn operation_of(&self, peer: u16, request_kind: &RequestKind, answer: ReplySummary) -> u32
        ensures { 0 < answer.operation → result ≡ answer.operation }
    {
        if answer.operation != 0 {
            return answer.operation;
        }
        match request_kind {
            RequestKind::Change { operation, .. } | RequestKind::Other { operation } => *operation,
            RequestKind::Response { challenge, .. } => self.challenged_operation(peer, *challenge),
            RequestKind::Piece => 0,
        }
    }

    /// The number of the operation that was challenged so; 0 where that isn't known.
    fn challenged_operation(&self, peer: u16, challenge: u32) -> u32 {
        let Some(place) = self.place_of_challenge(peer, challenge) else {
            return 0;
        };
        match self.challenged.get(place) {
            Some(challenged) => challenged.operation,
            None => 0,
        }
    }

    /// The entry of a response's reply.
    fn entry_of_response(
        &mut self,
        peer: u16,
        challenge: u32,
        key: Option<KeyName>,
        answer: ReplySummary,
    ) -> Option<Entry>
        ensures told { IsTrue (ends_change answer) → IsSome result }
        ensures change { IfSome result (λ entry. changes entry.operation ≡ true) }
        ensures own { IfSome result (λ entry. NamesNothing entry ⊎ NamesBy (RequestKind.Response challenge key) self.old.challenged.items peer entry) }
        ensures kept { OnlyGains self.old.challenged.items (λ _. ⊥) self.new.challenged.items }
        ensures code { IfSome result (λ entry. entry.code ≡ answer.code) }
    {
        match self.take_challenged(peer, challenge, answer) {
            Some(challenged) => Some(Entry {
                operation: challenged.operation,
                handle: challenged.handle,
                key,
                code: answer.code,
            }),
            None => entry_without_name(answer),
        }
    }

    /// The entry of a reply to this matter.
    fn entry_of(
        &mut self,
        peer: u16,
        request_kind: RequestKind,
        answer: ReplySummary,
    ) -> Option<Entry>
        requires { is_consistent request_kind ≡ true }
        ensures told { IsTrue (ends_change answer) → IsSome result }
        ensures change { IfSome result (λ entry. changes entry.operation ≡ true) }
        ensures own { IfSome result (λ entry. NamesNothing entry ⊎ NamesBy request_kind self.old.challenged.items peer entry) }
        ensures challenged { OnlyGains self.old.challenged.items (IsChallenged request_kind peer answer) self.new.challenged.items }
        ensures code { IfSome result (λ entry. entry.code ≡ answer.code) }
    {
        match request_kind {
            RequestKind::Change { operation, handle } if answer.is_challenge() => {
                self.put_challenged(Challenged {
                    peer,
                    session: answer.session,
                    operation,
                    handle,
                });
                None
            }
            RequestKind::Change { operation, handle } => Some(Entry {
                operation,
                handle,
                key: None,
                code: answer.code,
            }),
            RequestKind::Response { challenge, key } => {
                self.entry_of_response(peer, challenge, key, answer)
            }
            RequestKind::Piece | RequestKind::Other { .. } => entry_without_name(answer),
        }
    }

    /// A frame goes to a peer. What its front says, where it has one, with the operation that it answers, and the entry of the change that was
    /// accepted or refused by it.
    pub fn note_reply(&mut self, peer: u16, frame: &[u8]) -> Option<Followed>
        ensures answer { option_map (λ followed. followed.answer) result ≡ answer_of frame.now }
        ensures operation { IfSome result (λ followed. 0 < followed.answer.operation → followed.operation ≡ followed.answer.operation) }
        ensures told { IfSome result (λ followed. IsTrue (ends_change followed.answer) → IsSome followed.entry) }
        ensures change { IfSome result (λ followed. IfSome followed.entry (λ entry. changes entry.operation ≡ true)) }
        ensures own { IfSome result (λ followed. IfSome followed.entry (NamesOwn self.old.unanswered.items self.old.challenged.items peer)) }
        ensures challenged { OnlyGains self.old.challenged.items (IsOwnChallenge self.old.unanswered.items peer (answer_of frame.now)) self.new.challenged.items }
        ensures code { IfSome result (λ followed. IfSome followed.entry (λ entry. entry.code ≡ followed.answer.code)) }
    {
        let answer = ReplySummary::of(frame)?;
        let request_kind = self.take_request_kind(peer, answer.request);
        let operation = self.operation_of(peer, &request_kind, answer);
        let entry = self.entry_of(peer, request_kind, answer);
        Some(Followed {
            answer,
            operation,
            entry,
        })
    }
}

/// The entry of a reply of which nothing else is certain.
fn entry_without_name(answer: ReplySummary) -> Option<Entry>
    ensures told { IsTrue (ends_change answer) → IsSome result }
    ensures only { IsSome result → IsTrue (ends_change answer) }
    ensures change { IfSome result (λ entry. changes entry.operation ≡ true) }
    ensures nothing { IfSome result (λ entry. (entry.handle ≡ None) × (entry.key ≡ None)) }
    ensures code { IfSome result (λ entry. entry.code ≡ answer.code) }
{
    if !answer.ends_change() {
        return None;
    }
    Some(Entry {
        operation: answer.operation,
        handle: None,
        key: None,
        code: answer.code,
    })
}
