//! A question on its way from server to server.

use futures::channel::oneshot;
use hdl_forms::{edit_page, with_history};
use hdl_history::Entry;
use hdl_proxy::{Answer, Next, NoAnswer, Question, next_step};
use hdl_routes::{Failure, worst};
use std::alloc::{AllocError, Global};
use std::vec::IntoIter;

/// An answer, or that there was no memory for it.
pub(crate) type AnswerResult = Result<Answer, AllocError>;

/// What a form is made of besides the reply: its token, and the last changes of the handle, newest first.
#[derive(Drop)]
pub(crate) struct PendingForm {
    pub(crate) token: Vec<u8>,
    pub(crate) changes: Vec<Entry>,
}

/// A question, which servers are still to be asked, what those came to that were, and where the answer goes.
#[derive(Drop)]
pub(crate) struct PendingQuestion {
    pub(crate) alloc: Global,
    pub(crate) question: Question,
    pub(crate) message: Vec<u8>,
    pub(crate) turn: IntoIter<usize>,
    pub(crate) failure: Failure,
    /// Since when it waits for the server that is next.
    pub(crate) since: u64,
    /// The form that is made of the reply, where one is.
    pub(crate) form: Option<PendingForm>,
    pub(crate) answer: oneshot::Sender<AnswerResult>,
}

/// What is next for a question, now that this was answered: the page of a form where one is made of it.
fn next_or_form(
    alloc: Global,
    question: Question,
    form: Option<PendingForm>,
    answered: Result<&[u8], NoAnswer>,
    chance: u64,
) -> Result<Next, AllocError> {
    match form {
        Some(form) => {
            let page = edit_page(alloc, &question, answered, &form.token)?;
            Ok(Next::Answer(with_history(alloc, page, &form.changes)?))
        }
        None => next_step(alloc, question, answered, chance),
    }
}

/// The answer to a browser if no server gave a good one.
fn no_answer(failure: Failure) -> NoAnswer {
    match failure {
        Failure::Elsewhere => NoAnswer::Elsewhere,
        Failure::Unreachable => NoAnswer::Unreachable,
        Failure::Crowded => NoAnswer::Crowded,
    }
}

/// The answer where no server gave a reply, so that there is no alias to follow.
fn last_answer(next: Result<Next, AllocError>) -> AnswerResult {
    match next {
        Ok(Next::Answer(answer)) => Ok(answer),
        Ok(Next::Ask(question)) => {
            drop(question);
            Err(AllocError)
        }
        Err(refused) => Err(refused),
    }
}

impl PendingQuestion {
    /// A server gave no good answer.
    pub(crate) fn note_failure(&mut self, reason: Failure) {
        self.failure = worst(self.failure, reason);
    }

    /// What is next, now that a server gave this reply, and where the answer goes.
    pub(crate) fn next(
        self,
        reply: &[u8],
        chance: u64,
    ) -> (Result<Next, AllocError>, oneshot::Sender<AnswerResult>) {
        let next = next_or_form(self.alloc, self.question, self.form, Ok(reply), chance);
        (next, self.answer)
    }

    /// Answers that there was no memory.
    pub(crate) fn refuse(self) {
        let _ = self.answer.send(Err(AllocError));
    }

    /// Answers with what all servers came to.
    pub(crate) fn end(self) {
        let failure = no_answer(self.failure);
        let next = next_or_form(self.alloc, self.question, self.form, Err(failure), 0);
        let _ = self.answer.send(last_answer(next));
    }
}
