//! What is next for a question that was answered: the handle that its alias names, one that may be meant, or the answer.

ghost use Rattle.std.specs.Prelude.{◌≡◌, IfOk, option_copied, slice_get};
ghost use Rattle.hdl_proxy.specs.Begin.{IsLocatedIfAnswered};
ghost use Rattle.hdl_proxy.specs.Answer.{IsLocated};
ghost use Rattle.hdl_proxy.specs.Step.{Ends, EndsAt, Hops, IsNamed, IsOfAlias, IsStep, IsWithin, LeadsNowhere, Settles, TriesNext, first_of, is_missing, is_there, may_try, meant_in};

use crate::alias::{Hop, hop_in, is_among, way_words};
use crate::answer::{Answer, CacheControl, Media, Status};
use crate::cache_control::sooner;
use crate::codes::{HANDLE_NOT_FOUND, TOO_FAR, VALUE_NOT_FOUND};
use crate::found::{Found, read_answer};
use crate::guess::guess_after;
use crate::hops::{nowhere_page, put_alias};
use crate::json::refusal;
use crate::page::Page;
use crate::pages::missing_page;
use crate::proxy::{Next, answer_found, is_json};
use crate::question::{AnswerFormat, Question};
use crate::resolver::NoAnswer;
use hdl_languages::{Language, Phrase};
use hdl_name::Name;
use std::alloc::{AllocError, Global};

/// The most aliases that are followed one after the other.
pub const HOPS_MOST: usize = 10;

/// The most other names that are tried where a handle isn't there.
const TRIES_MOST: usize = 2;

/// The same answer, which others may keep no longer than this.
pub(crate) fn within(cache_control: CacheControl, answer: Answer) -> Answer
    ensures { IsWithin cache_control answer result }
{
    Answer {
        cache_control: sooner(cache_control, answer.cache_control),
        ..answer
    }
}

/// The same page, which says which handle was asked for, by a link to its own values.
fn of_alias(
    alloc: Global,
    language: Language,
    asked: &Name,
    answer: Answer,
) -> Result<Answer, AllocError>
    ensures { IfOk result (IsOfAlias language asked.now answer) }
{
    let mut title = Vec::from_slice(alloc, asked.sent())?;
    title.extend_from_slice(language.words(Phrase::AnAlias).as_bytes())?;
    title.extend_from_slice(&answer.title)?;
    let mut page = Page::empty(alloc);
    put_alias(&mut page, language, asked)?;
    page.part(&answer.body)?;
    Ok(Answer {
        title,
        body: page.into_octets(),
        ..answer
    })
}

/// The same answer: a page says which handle was asked for, where aliases led on from one.
fn with_asked_name(
    alloc: Global,
    language: Language,
    asked: Option<&Name>,
    answer: Answer,
) -> Result<Answer, AllocError>
    ensures { IfOk result (IsNamed language (option_copied asked.entry) answer) }
{
    match asked {
        Some(asked) if answer.media == Media::Page => of_alias(alloc, language, asked, answer),
        _ => Ok(answer),
    }
}

/// The answer to a question of whose handle this was found, where no alias is followed.
fn end(alloc: Global, question: &Question, found: &Found, chance: u64) -> Result<Answer, AllocError>
    ensures ends { IfOk result (Ends question.now found.now) }
    ensures located { IfOk result IsLocated }
{
    let answer = answer_found(alloc, question, found, chance)?;
    let kept = within(question.cache_control, answer);
    with_asked_name(
        alloc,
        question.form.language(),
        question.passed.first(),
        kept,
    )
}

/// The first of these handles.
fn first_of(names: &[Name]) -> &[u8]
    ensures { result.now ≡ first_of names.now }
{
    match names.first() {
        Some(first) => first.sent(),
        None => b"",
    }
}

/// The answer if the aliases of these handles lead nowhere, the last of them to this one.
fn nowhere(
    alloc: Global,
    form: AnswerFormat,
    front: Phrase,
    asked: &[Name],
    target: &Name,
) -> Result<Answer, AllocError>
    ensures { IfOk result (LeadsNowhere form front asked.now target.now) }
{
    let handle = first_of(asked);
    match form {
        AnswerFormat::Json | AnswerFormat::Pretty => {
            let words = Language::English.words(front);
            let why = way_words(alloc, words, asked, target)?;
            refusal(alloc, Status::NotFound, handle, TOO_FAR, why.as_str())
        }
        AnswerFormat::Follow(language) | AnswerFormat::Page(language) => nowhere_page(
            alloc, language, handle, front, asked, target,
        ),
    }
}

/// What is next where this alias is followed.
fn follow(alloc: Global, question: Question, hop: Hop) -> Result<Next, AllocError>
    ensures { IfOk result (Hops question hop) }
{
    let Question {
        name,
        form,
        append,
        locatt,
        aliases,
        passed,
        cache_control,
        anew,
        ..
    } = question;
    let mut asked = passed;
    let hops = asked.len();
    asked.push(name)?;
    if is_among(&asked, &hop.target) {
        let answer = nowhere(alloc, form, Phrase::InACircle, &asked, &hop.target)?;
        return Ok(Next::Answer(answer));
    }
    if hops >= HOPS_MOST {
        let answer = nowhere(alloc, form, Phrase::BeyondTen, &asked, &hop.target)?;
        return Ok(Next::Answer(answer));
    }
    Ok(Next::Ask(Question {
        name: hop.target,
        form,
        indexes: Vec::new(alloc),
        types: Vec::new(alloc),
        append,
        locatt,
        aliases,
        passed: asked,
        tried: Vec::new(alloc),
        cache_control: sooner(cache_control, hop.cache_control),
        anew,
    }))
}

fn is_missing(found: &Found) -> bool
    ensures { result ≡ is_missing found.now }
{
    matches!(found, Found::Refused(HANDLE_NOT_FOUND))
}

/// Whether a handle is there, if only by what isn't public.
fn is_there(found: &Found) -> bool
    ensures { result ≡ is_there found.now }
{
    matches!(found, Found::Values(_) | Found::Refused(VALUE_NOT_FOUND))
}

/// Whether another name is tried: on a page, in place of the handle that was asked for itself, and two at most.
fn may_try(question: &Question, found: &Found) -> bool
    ensures { result ≡ may_try question.now found.now }
{
    is_missing(found)
        && !is_json(question.form)
        && question.passed.is_empty()
        && question.tried.len() < TRIES_MOST
}

/// What is next where the handle of this question isn't there: another one that may be meant, or the answer.
fn try_next(alloc: Global, question: Question) -> Result<Next, AllocError>
    ensures tries { IfOk result (TriesNext question) }
    ensures located { IfOk result IsLocatedIfAnswered }
{
    let language = question.form.language();
    let mut tried = question.tried;
    tried.push(question.name)?;
    match guess_after(alloc, &tried, first_of(&tried))? {
        Some(name) => Ok(Next::Ask(Question {
            name,
            form: AnswerFormat::Page(language),
            indexes: Vec::new(alloc),
            types: Vec::new(alloc),
            append: Vec::new(alloc),
            locatt: String::new(alloc),
            aliases: false,
            passed: Vec::new(alloc),
            tried,
            cache_control: CacheControl::Never,
            anew: question.anew,
        })),
        None => Ok(Next::Answer(missing_page(alloc, language, first_of(&tried), None)?)),
    }
}

/// The handle of this question, if it may be meant: if it is there.
fn meant_in<'a>(question: &'a Question, found: &Found) -> Option<&'a Name>
    ensures { option_copied result ≡ meant_in question.now found.now }
{
    if is_there(found) {
        Some(&question.name)
    } else {
        None
    }
}

/// The answer to a question of whose handle this was found: if it was tried in place of another one, whether it is meant.
fn end_at(
    alloc: Global,
    question: &Question,
    found: &Found,
    chance: u64,
) -> Result<Answer, AllocError>
    ensures ends { IfOk result (EndsAt (slice_get question.now.tried.items 0) question.now found.now) }
    ensures located { IfOk result IsLocated }
{
    match question.tried.first() {
        Some(asked) => {
            let language = question.form.language();
            missing_page(alloc, language, asked.sent(), meant_in(question, found))
        }
        None => end(alloc, question, found, chance),
    }
}

/// What is next for a question of whose handle this was found, where no alias is followed.
fn settle(alloc: Global, question: Question, found: &Found, chance: u64) -> Result<Next, AllocError>
    ensures settles { IfOk result (Settles question found.now) }
    ensures located { IfOk result IsLocatedIfAnswered }
{
    if may_try(&question, found) {
        return try_next(alloc, question);
    }
    Ok(Next::Answer(end_at(alloc, &question, found, chance)?))
}

/// What is next for a question, now that a server gave this. Where aliases are followed and the handle has one, the handle that it names is
/// asked for, unless that was asked for already or ten aliases were followed. Where a page asks for a handle that isn't there, at most two others are tried that may be meant. Else the answer is there. So at most ten questions come of one. `chance`
/// is any number, by which one of several locations is chosen.
pub fn next_step(
    alloc: Global,
    question: Question,
    answered: Result<&[u8], NoAnswer>,
    chance: u64,
) -> Result<Next, AllocError>
    ensures steps { IfOk result (IsStep question answered.entry) }
    ensures located { IfOk result IsLocatedIfAnswered }
{
    let found = read_answer(alloc, question.name.sent(), answered)?;
    match hop_in(alloc, &found, question.aliases)? {
        Some(hop) => follow(alloc, question, hop),
        None => settle(alloc, question, &found, chance),
    }
}
