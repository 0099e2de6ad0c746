//! From a request of HTTP to a question, and from its reply to an answer.

ghost use Rattle.std.specs.Prelude.{◌≡◌, ◌≢◌, IfOk, codes, option_copied, string_bytes};
ghost use Rattle.hdl_proxy.specs.Answer.{Answers, Follows, Goes, IsLocated, LeadsTo, Refuses, ShowsFound, ShowsValues, is_json};
ghost use Rattle.hdl_proxy.specs.Begin.{AsksAddress, AsksFor, IsAnswered, IsBare, IsFile, IsFront, IsLocatedIfAnswered, IsNoHandle, IsOfFile, IsOfHandle, IsOwn, IsReading, LeadsFromPasted, LeadsToName, RefusesMethod, RefusesMethodIn, RefusesRequest, asked_text, fault_sentence, first_cache_control, follows_aliases, is_called_back, json_form, page_form, without_slash};
ghost use Rattle.hdl_proxy.specs.Link.{path_to_form};
ghost use Rattle.hdl_proxy.specs.Query.{pairs_of, texts_of};
ghost use Rattle.hdl_proxy.specs.Status.{refused_words};
ghost use Rattle.hdl_proxy.specs.declared.answer.CacheControl.TheVariants.{Never};

use crate::answer::{Answer, CacheControl, Media, Status, reported_code};
use crate::cache_control::{DAY_SECONDS, cache_control_of};
use crate::choice::first_gone;
use crate::codes::{
    HANDLE_NOT_FOUND, INVALID_HANDLE, OPERATION_DENIED, SERVER_BUSY, SERVICE_REFERRAL,
    VALUE_NOT_FOUND,
};
use crate::found::{Found, read_answer};
use crate::link::Link;
use crate::names::{decode, read_name, unescape};
use crate::note::Note;
use crate::pasted::{between_spaces, name_within, pasted_name};
use crate::query::{
    Pair, has_pair, indexes_of, last_named, location_asked, read_pairs, text_to_append, types_of,
};
use crate::question::{AnswerFormat, Question};
use crate::redirect_choice::{RedirectChoice, RedirectRequest, redirect_from};
use crate::resolver::NoAnswer;
use crate::{files, json, pages};
use hdl_languages::{Language, Phrase};
use hdl_msg::ResponseCode;
use hdl_name::{Name, NameFault};
use hdl_value::Value;
use std::alloc::{AllocError, Global};

/// The path under which all answers are JSON.
const API_PATH: &str = "/api/";

/// Where handles are listed.
const LIST_PATH: &str = "/api/handles";

/// Where the values of a handle are asked for as JSON.
const JSON_PATH: &str = "/api/handles/";

/// What is to be done next.
#[derive(Drop)]
pub enum Next {
    /// It is answered.
    Answer(Answer),
    /// A server is to be asked, and then [`next_step`](crate::next_step).
    Ask(Question),
}

/// The front page, or the way from its form to a handle's own address.
fn begin_front(
    alloc: Global,
    own: Option<&str>,
    language: Language,
    pairs: &[Pair],
) -> Result<Next, AllocError>
    ensures front { IfOk result (IsFront language (option_copied own.entry) (texts_of pairs.now)) }
    ensures located { IfOk result IsLocatedIfAnswered }
{
    match last_named(alloc, pairs, "handle")? {
        Some(sent) => Ok(Next::Answer(lead_from(alloc, own, language, sent)?)),
        None => Ok(Next::Answer(pages::front(alloc, language)?)),
    }
}

/// The way from what was pasted.
fn lead_from(
    alloc: Global,
    own: Option<&str>,
    language: Language,
    sent: &str,
) -> Result<Answer, AllocError>
    ensures leads { IfOk result (LeadsFromPasted language (option_copied own.entry) sent.now) }
    ensures located { IfOk result IsLocated }
{
    let name = pasted_name(alloc, own, sent)?;
    lead(alloc, language, &name)
}

/// The way to the form by which a handle is changed, which nobody may keep.
pub fn lead_to_form(alloc: Global, name: &Name) -> Result<Answer, AllocError>
    ensures leads { IfOk result (LeadsTo name.now (path_to_form name.now)) }
    ensures kept { IfOk result (λ answer. answer.cache_control ≡ Never) }
    ensures located { IfOk result IsLocated }
{
    let to = Link::to_form(alloc, name)?;
    pages::redirect(alloc, name.sent(), to, CacheControl::Never)
}

/// The way to a handle's own address.
fn lead(alloc: Global, language: Language, sent: &[u8]) -> Result<Answer, AllocError>
    ensures leads { IfOk result (LeadsToName language sent.now) }
    ensures located { IfOk result IsLocated }
{
    match read_name(alloc, sent)? {
        Ok(name) => {
            let to = Link::of_name(alloc, &name)?;
            pages::redirect(alloc, name.sent(), to, CacheControl::Never)
        }
        Err(fault) => {
            let why = language.words(fault_sentence(fault));
            bad_request(alloc, sent, AnswerFormat::Page(language), why)
        }
    }
}

/// The sentence that says why a name is no handle.
fn fault_sentence(fault: NameFault) -> Phrase
    ensures { result ≡ fault_sentence fault }
{
    match fault {
        NameFault::TooLong => Phrase::NameTooLong,
        NameFault::NotUtf8 => Phrase::NameNotUtf8,
        NameFault::NoSlash => Phrase::NameWithoutSlash,
        NameFault::BadSegment => Phrase::NameOfBadSegment,
        NameFault::Memory => Phrase::NameWithoutMemory,
    }
}

fn bad_request(
    alloc: Global,
    asked: &[u8],
    form: AnswerFormat,
    why: &str,
) -> Result<Answer, AllocError>
    ensures refuses { IfOk result (Refuses Status.BadRequest form asked.now INVALID_HANDLE why.now) }
    ensures located { IfOk result IsLocated }
{
    let code = ResponseCode::InvalidHandle.number();
    refusal_of(alloc, form, asked, Status::BadRequest, code, why)
}

/// What was asked, as text: the octets that the path stands for, or where they are none the path as it was sent.
fn asked_text<'a>(octets: &'a [u8], sent: &'a str) -> &'a [u8]
    ensures { result.now ≡ asked_text octets.now sent.now }
{
    match str::from_utf8(octets) {
        Ok(_) => octets,
        Err(_) => sent.as_bytes(),
    }
}

/// The refusal of a request for this name, which stands so in the address.
fn refuse(
    alloc: Global,
    form: AnswerFormat,
    name: &[u8],
    sent: &str,
    why: &str,
) -> Result<Next, AllocError>
    ensures refuses { IfOk result (IsAnswered (RefusesRequest form name.now sent.now why.now)) }
    ensures located { IfOk result IsLocatedIfAnswered }
{
    let asked = asked_text(name, sent);
    Ok(Next::Answer(bad_request(alloc, asked, form, why)?))
}

/// Whether the form is JSON.
pub(crate) fn is_json(form: AnswerFormat) -> bool
    ensures { result ≡ is_json form }
{
    matches!(form, AnswerFormat::Json | AnswerFormat::Pretty)
}

/// Whether JSON is asked for as a call of a function, as a page's script had to before `Access-Control-Allow-Origin`.
fn is_called_back(form: AnswerFormat, pairs: &[Pair]) -> bool
    ensures { result ≡ is_called_back form (texts_of pairs.now) }
{
    is_json(form) && has_pair(pairs, "callback")
}

/// Whether aliases are followed: where a URL is, unless the query says that they are not.
fn follows_aliases(form: AnswerFormat, pairs: &[Pair]) -> bool
    ensures { result ≡ follows_aliases form (texts_of pairs.now) }
{
    matches!(form, AnswerFormat::Follow(_)) && !has_pair(pairs, "ignore_aliases")
}

/// How long others may keep what is answered at most: where a server is to be asked in any case, not without asking again.
fn first_cache_control(pairs: &[Pair]) -> CacheControl
    ensures { result ≡ first_cache_control (texts_of pairs.now) }
{
    if has_pair(pairs, "auth") {
        CacheControl::Seconds(0)
    } else {
        CacheControl::Seconds(DAY_SECONDS)
    }
}

/// The question of an address: `sent` is the part of its path that names a handle, `octets` the name in it.
fn begin_handle(
    alloc: Global,
    sent: &str,
    octets: &[u8],
    form: AnswerFormat,
    pairs: &[Pair],
) -> Result<Next, AllocError>
    ensures asks { IfOk result (AsksFor sent.now octets.now form (texts_of pairs.now)) }
    ensures located { IfOk result IsLocatedIfAnswered }
{
    if is_called_back(form, pairs) {
        let why = "callback is refused: pages of any site may read this JSON without it.";
        return refuse(alloc, form, octets, sent, why);
    }
    let Some(indexes) = indexes_of(alloc, pairs)? else {
        let why = form.language().words(Phrase::BadIndex);
        return refuse(alloc, form, octets, sent, why);
    };
    let types = types_of(alloc, pairs)?;
    let append = text_to_append(alloc, pairs)?;
    let locatt = location_asked(alloc, pairs)?;
    match read_name(alloc, octets)? {
        Ok(name) => Ok(Next::Ask(Question {
            name,
            form,
            indexes,
            types,
            append,
            locatt,
            aliases: follows_aliases(form, pairs),
            passed: Vec::new(alloc),
            tried: Vec::new(alloc),
            cache_control: first_cache_control(pairs),
            anew: has_pair(pairs, "auth"),
        })),
        Err(fault) => {
            let why = form.language().words(fault_sentence(fault));
            refuse(alloc, form, octets, sent, why)
        }
    }
}

/// The form of an address for browsers: a page of its values, or the way.
fn page_form(language: Language, pairs: &[Pair]) -> AnswerFormat
    ensures { result ≡ page_form language (texts_of pairs.now) }
{
    if has_pair(pairs, "noredirect") {
        AnswerFormat::Page(language)
    } else {
        AnswerFormat::Follow(language)
    }
}

fn json_form(pairs: &[Pair]) -> AnswerFormat
    ensures { result ≡ json_form (texts_of pairs.now) }
{
    if has_pair(pairs, "pretty") {
        AnswerFormat::Pretty
    } else {
        AnswerFormat::Json
    }
}

fn without_slash(path: &str) -> &str
    ensures { result.now ≡ without_slash path.now }
{
    match path.strip_prefix('/') {
        Some(rest) => rest,
        None => path,
    }
}

/// The answer that refuses what is asked at this path.
fn refuse_path(
    alloc: Global,
    form: AnswerFormat,
    path: &str,
    status: Status,
    why: &str,
) -> Result<Answer, AllocError>
    ensures refuses { IfOk result (Refuses status form path.now OPERATION_DENIED why.now) }
{
    let code = ResponseCode::OperationDenied.number();
    refusal_of(alloc, form, path.as_bytes(), status, code, why)
}

/// The answer at an address under `/api/` that isn't a handle's.
fn no_handle(alloc: Global, path: &str) -> Result<Answer, AllocError>
    ensures none { IfOk result (IsNoHandle path.now) }
    ensures located { IfOk result IsLocated }
{
    if path == LIST_PATH {
        let why = "This proxy lists no handles, since it accepts no keys.";
        return refuse_path(alloc, AnswerFormat::Json, path, Status::Forbidden, why);
    }
    let why = "There is nothing at this address. A handle is at /api/handles/HANDLE.";
    refuse_path(alloc, AnswerFormat::Json, path, Status::NotFound, why)
}

/// The question of an address that is neither the front page nor a file.
fn begin_address(
    alloc: Global,
    language: Language,
    path: &str,
    query: &str,
) -> Result<Next, AllocError>
    ensures asks { IsOfHandle path.now → IfOk result (AsksAddress language path.now (pairs_of query.now)) }
    ensures none { ¬ (IsOfHandle path.now) → IfOk result (IsAnswered (IsNoHandle path.now)) }
    ensures located { IfOk result IsLocatedIfAnswered }
{
    let pairs = read_pairs(alloc, query)?;
    if let Some(text) = path.strip_prefix(JSON_PATH) {
        let octets = unescape(alloc, text)?;
        return begin_handle(alloc, text, &octets, json_form(&pairs), &pairs);
    }
    if path.starts_with(API_PATH) {
        return Ok(Next::Answer(no_handle(alloc, path)?));
    }
    let sent = without_slash(path);
    let octets = decode(alloc, name_within(sent.as_bytes()))?;
    let name = between_spaces(&octets);
    begin_handle(alloc, sent, name, page_form(language, &pairs), &pairs)
}

/// The answer to a handle that is asked for by another method.
fn refuse_method(alloc: Global, form: AnswerFormat, path: &str) -> Result<Answer, AllocError>
    ensures refuses { IfOk result (RefusesMethodIn form path.now) }
    ensures located { IfOk result IsLocated }
{
    let why = form.language().words(Phrase::OtherMethod);
    refuse_path(alloc, form, path, Status::MethodNotAllowed, why)
}

/// What is answered to a request that doesn't read.
fn begin_other(
    alloc: Global,
    language: Language,
    method: &str,
    path: &str,
) -> Result<Answer, AllocError>
    ensures refuses { IfOk result (RefusesMethod language method.now path.now) }
    ensures located { IfOk result IsLocated }
{
    if !path.starts_with(API_PATH) {
        return refuse_method(alloc, AnswerFormat::Page(language), path);
    }
    if method == "OPTIONS" {
        return Ok(options(alloc));
    }
    refuse_method(alloc, AnswerFormat::Json, path)
}

/// The answer to a browser that asks whether another page may send such a request: nothing but the fields of the answer.
pub fn options(alloc: Global) -> Answer
    ensures { IsBare result }
{
    Answer::new(
        alloc,
        Status::NoContent,
        Media::Json,
        CacheControl::Never,
        Vec::new(alloc),
    )
}

/// What is to be done for a request with this method, path and query, each as it was sent; the query without its `?`. `own` is the address of the site, if it has one. Pages
/// are in this language.
pub fn begin(
    alloc: Global,
    own: Option<&str>,
    language: Language,
    method: &str,
    path: &str,
    query: &str,
) -> Result<Next, AllocError>
    ensures refuses { ¬ (IsReading method.now) → IfOk result (IsAnswered (RefusesMethod language method.now path.now)) }
    ensures front { IsReading method.now → path.now ≡ codes "/" → IfOk result (IsFront language (option_copied own.entry) (pairs_of query.now)) }
    ensures files { IsReading method.now → IsFile path.now → IfOk result (IsAnswered (IsOfFile path.now)) }
    ensures asks { IsReading method.now → IsOwn path.now → IsOfHandle path.now → IfOk result (AsksAddress language path.now (pairs_of query.now)) }
    ensures none { IsReading method.now → IsOwn path.now → ¬ (IsOfHandle path.now) → IfOk result (IsAnswered (IsNoHandle path.now)) }
    ensures located { IfOk result IsLocatedIfAnswered }
{
    if method != "GET" && method != "HEAD" {
        return Ok(Next::Answer(begin_other(alloc, language, method, path)?));
    }
    match path {
        "/" => {
            let pairs = read_pairs(alloc, query)?;
            begin_front(alloc, own, language, &pairs)
        }
        "/robots.txt" => Ok(Next::Answer(files::robots(alloc)?)),
        "/favicon.ico" => Ok(Next::Answer(files::icon(alloc)?)),
        _ => begin_address(alloc, language, path, query),
    }
}

fn refused_words(code: u32) -> Phrase
    ensures { result ≡ refused_words code }
{
    match code {
        HANDLE_NOT_FOUND => Phrase::NotThere,
        INVALID_HANDLE => Phrase::ServerSaysNoHandle,
        VALUE_NOT_FOUND => Phrase::NoSuchValue,
        SERVICE_REFERRAL => Phrase::NoSuchPrefix,
        SERVER_BUSY => Phrase::Busy,
        _ => Phrase::CouldNotAnswer,
    }
}

/// The way, or where there is none the values and what is wrong.
fn go(
    alloc: Global,
    language: Language,
    name: &Name,
    way: RedirectChoice,
    values: &[Value],
) -> Result<Answer, AllocError>
    ensures { IfOk result (Goes language name.now values.now way.to way.wrong) }
{
    let RedirectChoice { to, wrong } = way;
    match to {
        Some(link) => pages::redirect(alloc, name.sent(), link, cache_control_of(values)),
        None => pages::values_page(alloc, language, name, wrong, values),
    }
}

/// Where these values lead, or where that is nowhere the values.
fn lead_on(
    alloc: Global,
    language: Language,
    name: &Name,
    wish: &RedirectRequest<'_>,
    values: &[Value],
) -> Result<Answer, AllocError>
    ensures { IfOk result (Follows language name.now wish.now.append.now wish.now.locatt.now values.now) }
{
    let way = redirect_from(alloc, values, wish)?;
    go(alloc, language, name, way, values)
}

fn answer_values(
    alloc: Global,
    name: &Name,
    form: AnswerFormat,
    wish: &RedirectRequest<'_>,
    values: &[Value],
) -> Result<Answer, AllocError>
    ensures { IfOk result (ShowsValues form name.now wish.now.append.now wish.now.locatt.now values.now) }
{
    match form {
        AnswerFormat::Follow(language) => match first_gone(values) {
            Some(gone) => pages::gone_page(alloc, language, name, gone, values),
            None => lead_on(alloc, language, name, wish, values),
        },
        AnswerFormat::Page(language) => pages::values_page(
            alloc,
            language,
            name,
            Note::Nothing,
            values,
        ),
        AnswerFormat::Json => json::values_answer(
            alloc,
            name.sent(),
            values,
            cache_control_of(values),
        ),
        AnswerFormat::Pretty => json::pretty_answer(
            alloc,
            name.sent(),
            values,
            cache_control_of(values),
        ),
    }
}

/// The answer without values of this handle, by code and reason.
fn refusal_of(
    alloc: Global,
    form: AnswerFormat,
    handle: &[u8],
    status: Status,
    code: u32,
    why: &str,
) -> Result<Answer, AllocError>
    ensures { IfOk result (Refuses status form handle.now code why.now) }
{
    match form {
        AnswerFormat::Json | AnswerFormat::Pretty => json::refusal(
            alloc, status, handle, code, why,
        ),
        AnswerFormat::Follow(language) | AnswerFormat::Page(language) => pages::refusal(
            alloc, language, status, handle, code, why,
        ),
    }
}

/// What is answered where this was found, and no alias is followed.
pub(crate) fn answer_found(
    alloc: Global,
    question: &Question,
    found: &Found,
    chance: u64,
) -> Result<Answer, AllocError>
    ensures { IfOk result (ShowsFound question.now.form question.now.name question.now.append.items (string_bytes question.now.locatt) found.now) }
{
    let form = question.form;
    let handle = question.name.sent();
    match found {
        Found::Values(values) => {
            let wish = RedirectRequest {
                append: &question.append,
                locatt: &question.locatt,
                chance,
            };
            answer_values(alloc, &question.name, form, &wish, values)
        }
        Found::Refused(code) => {
            let status = Status::of_code(*code);
            let told = reported_code(*code);
            let why = form.language().words(refused_words(*code));
            refusal_of(alloc, form, handle, status, told, why)
        }
        Found::Nothing => {
            let why = form.language().words(Phrase::NoServerAnswered);
            let code = ResponseCode::Error.number();
            refusal_of(alloc, form, handle, Status::BadGateway, code, why)
        }
    }
}

/// What is answered to a question where no alias is followed: `answered` is the message of the reply, as a server gave it,
/// and `chance` any number, by which one of several locations is chosen.
pub fn finish(
    alloc: Global,
    question: &Question,
    answered: Result<&[u8], NoAnswer>,
    chance: u64,
) -> Result<Answer, AllocError>
    ensures answers { IfOk result (Answers question.now answered.entry) }
    ensures located { IfOk result IsLocated }
{
    let found = read_answer(alloc, question.name.sent(), answered)?;
    answer_found(alloc, question, &found, chance)
}
