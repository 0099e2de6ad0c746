//! The last changes of a handle, below its form. Of the values before a change only those are shown that everyone may read.

ghost use Rattle.std.specs.Prelude.{◌≡◌, ◌⊎◌, ◌↔◌, ◌++◌, ◌∷◌, [], true, false, IfOk, IsTrue, flat_map, string_bytes, take};
ghost use Rattle.hdl_value.specs.Reading.{Reads};
ghost use Rattle.hdl_proxy.specs.declared.answer.Status.TheVariants.{Success};
ghost use Rattle.hdl_proxy.specs.Words.{IsMomentText};
ghost use Rattle.hdl_forms.specs.History.{HasHistory, IsEntries, IsEntryPart, IsHeadPart, IsHistoryPart, IsMoment, author_words, before_part, is_public, lets_read, line_part, operation_words, shown_line, shows_history};
ghost use Rattle.hdl_forms.specs.Pages.{IsFormPage};

use crate::markup::Template;
use crate::template::{FormPage, Texts};
use hdl_history::{Author, Entry, Operation, ValuesBefore};
use hdl_limits::Octets;
use hdl_proxy::{Answer, Status};
use hdl_value::HS_SECKEY;
use hdl_value_lines::{cut_at, permissions_in};
use jiff_core::Timestamp;
use jiff_fmt::temporal::DateTimePrinter;
use std::alloc::{AllocError, Global};

/// The most changes that are shown.
pub const SHOWN_MOST: usize = 5;

/// Whether these permissions let everyone read a value.
fn lets_read(permissions: Option<u8>) -> bool
    ensures { result ≡ lets_read permissions }
{
    match permissions {
        Some(bits) => bits / 2 % 2 == 1,
        None => false,
    }
}

/// Whether everyone may read a value of this type with these digits as permissions: also of no secret key anything is shown.
fn is_public(kind: &[u8], digits: &[u8]) -> bool
    ensures { result ≡ is_public kind.now digits.now }
{
    lets_read(permissions_in(digits)) && kind != HS_SECKEY
}

/// Index, type and data of the value that a line says, if everyone may read it. A line that hides its value, or has other fields, is left out.
#[tactic(auto, unfolding(crate::specs::History::shown_line))]
fn shown_line(line: &[u8]) -> Option<(&[u8], &[u8], &[u8])>
    ensures { Reads (λ x. (x.0.now, x.1.now, x.2.now)) result (shown_line line.now) }
{
    let (index, rest) = cut_at(line, b' ')?;
    let (kind, rest) = cut_at(rest, b' ')?;
    let (_, rest) = cut_at(rest, b' ')?;
    let (digits, rest) = cut_at(rest, b' ')?;
    let (_, data) = cut_at(rest, b' ')?;
    if is_public(kind, digits) {
        Some((index, kind, data))
    } else {
        None
    }
}

/// The page with the value of this line, if everyone may read it.
fn with_line(alloc: Global, page: FormPage, line: &[u8]) -> Result<FormPage, AllocError>
    ensures { IfOk result (λ after. after ≡ page ++ line_part line.now) }
{
    match shown_line(line) {
        Some((index, kind, data)) => {
            let texts = Texts::new(alloc).and(kind)?.and(index)?.and(data)?;
            page.with(Template::Before, texts)
        }
        None => Ok(page),
    }
}

/// The page with the values of these lines that everyone may read.
fn with_lines(alloc: Global, page: FormPage, lines: &[Octets]) -> Result<FormPage, AllocError>
    ensures { IfOk result (λ after. after ≡ page ++ flat_map line_part lines.now) }
{
    let mut rows = page;
    for line in lines {
        rows = with_line(alloc, rows, line.as_slice())?;
    }
    Ok(rows)
}

/// The page with the values before a change that everyone may read.
fn with_before(alloc: Global, page: FormPage, before: &ValuesBefore) -> Result<FormPage, AllocError>
    ensures { IfOk result (λ after. after ≡ page ++ before_part before.now) }
{
    match before {
        ValuesBefore::Lines(lines) => with_lines(alloc, page, lines.as_slice()),
        ValuesBefore::LeftOut(_) => Ok(page),
    }
}

/// What a change did.
fn operation_words(operation: Operation) -> &'static str
    ensures { result.now ≡ operation_words operation }
{
    match operation {
        Operation::Create => "created",
        Operation::Delete => "deleted",
        Operation::Add => "values added",
        Operation::Remove => "values removed",
        Operation::Modify => "changed",
    }
}

/// Who made it: a key as INDEX:HANDLE.
fn author_words(alloc: Global, author: &Author) -> Result<Vec<u8>, AllocError>
    ensures { IfOk result (λ words. words.items ≡ author_words author.now) }
{
    let key = match author {
        Author::Anyone => return Vec::from_slice(alloc, b"anyone, without a key"),
        Author::OtherServer => return Vec::from_slice(alloc, b"another server"),
        Author::Key(key) => key,
    };
    let digits = format!(in alloc; "{}", key.index)?;
    let mut words = Vec::from_slice(alloc, digits.as_bytes())?;
    words.push(b':')?;
    words.extend_from_slice(key.handle.as_slice())?;
    Ok(words)
}

/// A moment in RFC 3339, at UTC.
fn timestamp_words(alloc: Global, moment: Timestamp) -> Result<String, AllocError>
    ensures { IfOk result (λ words. IsMomentText moment.nanosecond (string_bytes words)) }
{
    let text = DateTimePrinter::new().timestamp_text(moment);
    String::from_str(alloc, text.as_str())
}

/// A moment in milliseconds since 1970, as in RFC 3339, in whole seconds; no words where the calendar hasn't that moment.
fn moment_words(alloc: Global, moment: u64) -> Result<String, AllocError>
    ensures { IfOk result (λ words. IsMoment moment (string_bytes words)) }
{
    let nanoseconds = i128::from(moment / 1000) * 1_000_000_000;
    match Timestamp::from_nanosecond(nanoseconds) {
        Ok(moment) => timestamp_words(alloc, moment),
        Err(_) => Ok(String::new(alloc)),
    }
}

/// The page with when a change was made, what it did, and who made it.
fn with_head(alloc: Global, page: FormPage, entry: &Entry) -> Result<FormPage, AllocError>
    ensures { IfOk result (λ after. (part : _) × IsHeadPart entry.now part × (after ≡ page ++ part)) }
{
    let moment = moment_words(alloc, entry.moment)?;
    let author = author_words(alloc, &entry.author)?;
    let texts = Texts::new(alloc).and(moment.as_bytes())?;
    let texts = texts.and(moment.as_bytes())?;
    let texts = texts.and(operation_words(entry.operation).as_bytes())?;
    let texts = texts.and(&author)?;
    page.with(Template::Entry, texts)
}

/// The page with a change.
fn with_entry(alloc: Global, page: FormPage, entry: &Entry) -> Result<FormPage, AllocError>
    ensures { IfOk result (λ after. (part : _) × IsEntryPart entry.now part × (after ≡ page ++ part)) }
{
    let page = with_head(alloc, page, entry)?;
    let page = with_before(alloc, page, &entry.before)?;
    page.with(Template::EntryEnd, Texts::new(alloc))
}

/// The page with these changes.
fn with_entries(alloc: Global, page: FormPage, entries: &[Entry]) -> Result<FormPage, AllocError>
    ensures { IfOk result (λ after. (part : _) × IsEntries entries.now part × (after ≡ page ++ part)) }
{
    let [first, rest @ ..] = entries else {
        return Ok(page);
    };
    let page = with_entry(alloc, page, first)?;
    with_entries(alloc, page, rest)
}

/// The first of these changes.
#[tactic(auto, using(std::proofs::lemmas::List::take_all))]
fn few(entries: &[Entry]) -> &[Entry]
    ensures { result.now ≡ take SHOWN_MOST entries.now }
{
    if entries.len() > SHOWN_MOST {
        &entries[..SHOWN_MOST]
    } else {
        entries
    }
}

/// The first of these changes, as a part of a page.
fn history_part(alloc: Global, entries: &[Entry]) -> Result<FormPage, AllocError>
    ensures { IfOk result (IsHistoryPart entries.now) }
{
    let shown = few(entries);
    let part = FormPage::new(alloc).with(Template::History, Texts::new(alloc))?;
    let part = with_entries(alloc, part, shown)?;
    part.with(Template::HistoryEnd, Texts::new(alloc))
}

/// Whether changes are shown on a page: there are some, and it is no error.
fn shows_history(answer: &Answer, entries: &[Entry]) -> bool
    ensures { result ≡ shows_history answer.now entries.now }
{
    answer.status == Status::Success && !entries.is_empty()
}

/// The page of a handle's form with the last changes of the handle below: the first five of these, which are given the newest first. It is as it was if there are none, or it is an error.
///
/// Of the values before a change those alone are shown that everyone may read by their line's permissions, and never a secret key.
pub fn with_history(alloc: Global, answer: Answer, entries: &[Entry]) -> Result<Answer, AllocError>
    ensures history { IfOk result (HasHistory entries.now answer) }
    ensures page { IsFormPage Success answer → IfOk result (IsFormPage Success) }
{
    if !shows_history(&answer, entries) {
        return Ok(answer);
    }
    let part = history_part(alloc, entries)?.into_octets();
    let mut body = Vec::from_slice(alloc, &answer.body)?;
    body.extend_from_slice(&part)?;
    Ok(Answer { body, ..answer })
}
