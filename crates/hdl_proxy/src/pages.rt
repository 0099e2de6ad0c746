//! The pages of the proxy.

ghost use Rattle.std.specs.Prelude.{◌≡◌, ◌≤◌, ◌++◌, List, ℕ, IfOk, OnOk, Some, [], filter, length, option_copied, option_map, string_bytes, take};
ghost use Rattle.hdl_languages.specs.Words.{words};
ghost use Rattle.hdl_languages.specs.declared.phrase.Phrase.TheVariants as phrases;
ghost use Rattle.hdl_proxy.specs.Pages.{advice_part, another_part, columns, group_head, known_part, IsGonePage, heading, is_head, is_put, json_part, moment_part, name_part, refusal_title, lead_word, meant_link, meant_part, IsTable, written_part, refusal_page, redirect_page, IsFew, IsGroup, IsGroupAt, IsGroupsFrom, IsMany, IsRow, IsWrittenPart, IsSection, IsSections, IsValuesPart, IsPageOf};
ghost use Rattle.std.specs.List.{list_any};
ghost use Rattle.hdl_proxy.specs.Choice.{is_of};
ghost use Rattle.hdl_proxy.specs.Answer.{IsGone, IsLocated, LeadsTo, Tells};
ghost use Rattle.hdl_proxy.specs.Guess.{missing_page};
ghost use Rattle.hdl_proxy.specs.CacheControl.{IsCacheControlOf};
ghost use Rattle.hdl_proxy.specs.Link.{name_in_address};
ghost use Rattle.hdl_proxy.specs.Status.{advice, ends_with_slash, look_again};

use crate::answer::{Answer, CacheControl, Media, Status};
use crate::cache_control::cache_control_of;
use crate::choice::{is_of, is_url};
use crate::codes::{
    HANDLE_NOT_FOUND, INVALID_HANDLE, OPERATION_DENIED, SERVICE_REFERRAL, TOO_FAR, VALUE_NOT_FOUND,
};
use crate::link::Link;
use crate::note::{Note, put_note};
use crate::page::Page;
use crate::url::name_in_address;
use crate::value_data::put_data;
use crate::words::{day_of, written_words};
use hdl_languages::{Language, Phrase};
use hdl_name::Name;
use hdl_value::Value;
use std::alloc::{AllocError, Global};

/// From so many values on they stand by their types.
const MANY: usize = 20;

const END: &str = "</tbody>
</table>
";

/// A page with this title.
pub(crate) fn page_answer(
    status: Status,
    cache_control: CacheControl,
    title: Vec<u8>,
    page: Page,
) -> Answer
    ensures told { Tells status Media.Page result }
    ensures kept { result.cache_control ≡ cache_control }
    ensures title { result.title ≡ title }
    ensures body { result.body ≡ page.octets }
{
    Answer {
        status,
        location: None,
        media: Media::Page,
        cache_control,
        tag: None,
        about: None,
        title,
        body: page.into_octets(),
    }
}

/// Whether a name ends with a slash, as one does that was typed like a folder.
fn ends_with_slash(asked: &[u8]) -> bool
    ensures { result ≡ ends_with_slash asked.now }
{
    asked.ends_with(b"/")
}

fn look_again(asked: &[u8]) -> Phrase
    ensures { result ≡ look_again asked.now }
{
    if ends_with_slash(asked) {
        Phrase::LookAtSlash
    } else {
        Phrase::LookAgain
    }
}

/// What a reader may do who asked for this, by the code of the refusal.
fn advice(code: u32, asked: &[u8]) -> Phrase
    ensures { result ≡ advice code asked.now }
{
    match code {
        HANDLE_NOT_FOUND | SERVICE_REFERRAL => look_again(asked),
        INVALID_HANDLE => Phrase::HandleForm,
        VALUE_NOT_FOUND => Phrase::SelectOthers,
        OPERATION_DENIED => Phrase::FollowLink,
        TOO_FAR => Phrase::TellGiver,
        _ => Phrase::ComeBack,
    }
}

/// How the title of a refusal begins, by its code.
fn lead_word(code: u32) -> Phrase
    ensures { result ≡ lead_word code }
{
    match code {
        HANDLE_NOT_FOUND | SERVICE_REFERRAL => Phrase::NotFoundTitle,
        INVALID_HANDLE => Phrase::NoHandleTitle,
        VALUE_NOT_FOUND => Phrase::NotPublicTitle,
        OPERATION_DENIED => Phrase::NotDoneTitle,
        TOO_FAR => Phrase::LeadsNowhereTitle,
        _ => Phrase::NoAnswerTitle,
    }
}

pub(crate) fn refusal_title(
    alloc: Global,
    language: Language,
    asked: &[u8],
    code: u32,
) -> Result<Vec<u8>, AllocError>
    ensures { IfOk result (λ title. title.items ≡ refusal_title language code asked.now) }
{
    let mut title = Vec::from_slice(alloc, language.words(lead_word(code)).as_bytes())?;
    title.extend_from_slice(asked)?;
    Ok(title)
}

/// Adds the name of a handle, below what is said of it.
pub(crate) fn put_name(page: &mut Page, name: &[u8]) -> Result<(), AllocError>
    ensures { OnOk result (page.new.octets.items ≡ page.old.octets.items ++ name_part name.now) }
{
    page.element("<p class=\"name\" dir=\"auto\">", name, "</p>\n")
}

/// The way to another handle.
#[tactic(auto, unfolding(crate::specs::Pages::another_part))]
fn put_another(page: &mut Page, language: Language) -> Result<(), AllocError>
    ensures { OnOk result (page.new.octets.items ≡ page.old.octets.items ++ another_part language) }
{
    page.phrase(
        language,
        "<p><a href=\"/\">",
        Phrase::FindAnother,
        "</a></p>\n",
    )
}

/// What to do, and the way to another handle.
#[tactic(auto, unfolding(crate::specs::Pages::advice_part))]
pub(crate) fn put_advice(
    page: &mut Page,
    language: Language,
    code: u32,
    asked: &[u8],
) -> Result<(), AllocError>
    ensures { OnOk result (page.new.octets.items ≡ page.old.octets.items ++ advice_part language code asked.now) }
{
    let advised = language.words(advice(code, asked));
    page.element("<p>", advised.as_bytes(), "</p>\n")?;
    put_another(page, language)
}

/// Adds the handle that may be meant, as a link to where its address leads.
#[tactic(auto, unfolding(crate::specs::Pages::meant_link))]
fn put_meant_link(page: &mut Page, language: Language, name: &Name) -> Result<(), AllocError>
    ensures { OnOk result (page.new.octets.items ≡ page.old.octets.items ++ meant_link language name.now) }
{
    let to = Link::of_name(page.alloc, name)?;
    page.phrase(
        language,
        "<p class=\"note\">",
        Phrase::DidYouMean,
        " <a href=\"",
    )?;
    page.text(to.octets())?;
    page.element("\"><bdi>", name.sent(), "</bdi></a>?</p>\n")
}

fn put_meant(page: &mut Page, language: Language, meant: Option<&Name>) -> Result<(), AllocError>
    ensures { OnOk result (page.new.octets.items ≡ page.old.octets.items ++ meant_part language (option_copied meant.entry)) }
{
    match meant {
        Some(name) => put_meant_link(page, language, name),
        None => Ok(()),
    }
}

/// A page that says that a handle isn't there, which one may be meant, if one is, and what to do.
#[tactic(auto, unfolding(crate::specs::Guess::missing_page))]
pub(crate) fn missing_page(
    alloc: Global,
    language: Language,
    asked: &[u8],
    meant: Option<&Name>,
) -> Result<Answer, AllocError>
    ensures told { IfOk result (Tells Status.NotFound Media.Page) }
    ensures kept { IfOk result (λ a. a.cache_control ≡ CacheControl.Never) }
    ensures title { IfOk result (λ a. a.title.items ≡ refusal_title language HANDLE_NOT_FOUND asked.now) }
    ensures body { IfOk result (λ a. a.body.items ≡ missing_page language asked.now (option_copied meant.entry)) }
{
    let title = refusal_title(alloc, language, asked, HANDLE_NOT_FOUND)?;
    let mut page = Page::headed(alloc, language, Phrase::NotThere)?;
    put_name(&mut page, asked)?;
    put_meant(&mut page, language, meant)?;
    put_advice(&mut page, language, HANDLE_NOT_FOUND, asked)?;
    Ok(page_answer(Status::NotFound, CacheControl::Never, title, page))
}

/// A page that says why there are no values: why not, what was asked, and what to do.
#[tactic(auto, unfolding(crate::specs::Pages::refusal_page))]
pub(crate) fn refusal(
    alloc: Global,
    language: Language,
    status: Status,
    asked: &[u8],
    code: u32,
    why: &str,
) -> Result<Answer, AllocError>
    ensures told { IfOk result (Tells status Media.Page) }
    ensures kept { IfOk result (λ a. a.cache_control ≡ CacheControl.Never) }
    ensures title { IfOk result (λ a. a.title.items ≡ refusal_title language code asked.now) }
    ensures body { IfOk result (λ a. a.body.items ≡ refusal_page language asked.now code why.now) }
{
    let title = refusal_title(alloc, language, asked, code)?;
    let mut page = Page::new(alloc, why.as_bytes())?;
    put_name(&mut page, asked)?;
    put_advice(&mut page, language, code, asked)?;
    Ok(page_answer(status, CacheControl::Never, title, page))
}

/// The form by which a handle is found.
fn put_find(page: &mut Page, language: Language) -> Result<(), AllocError> {
    page.phrase(
        language,
        "<form action=\"/\" method=\"get\">\n<p><label for=\"handle\">",
        Phrase::AsYouFoundIt,
        "</label></p>\n",
    )?;
    page.phrase(
        language,
        "<p class=\"find\"><input id=\"handle\" name=\"handle\" placeholder=\"10/a\" autocapitalize=\"off\" autocomplete=\"off\" spellcheck=\"false\" required> <button>",
        Phrase::GoToIt,
        "</button></p>\n</form>\n",
    )
}

/// What this is, and a form.
pub(crate) fn front(alloc: Global, language: Language) -> Result<Answer, AllocError>
    ensures { IfOk result (Tells Status.Success Media.Page) }
{
    let heading = language.words(Phrase::FindAHandle);
    let title = Vec::from_slice(alloc, heading.as_bytes())?;
    let mut page = Page::headed(alloc, language, Phrase::FindAHandle)?;
    put_find(&mut page, language)?;
    page.phrase(language, "<p>", Phrase::WhatAHandleIs, "</p>\n")?;
    page.phrase(
        language,
        "<p><small>",
        Phrase::HowToSeeValues,
        "</small></p>\n",
    )?;
    Ok(page_answer(Status::Success, CacheControl::Seconds(0), title, page))
}

#[tactic(auto, unfolding(crate::specs::Pages::redirect_page))]
fn put_way(page: &mut Page, title: &[u8], to: &Link) -> Result<(), AllocError>
    ensures { OnOk result (page.new.octets.items ≡ page.old.octets.items ++ redirect_page title.now to.now) }
{
    page.markup("<!DOCTYPE html>\n<meta charset=\"utf-8\">\n<title>")?;
    page.text(title)?;
    page.markup("</title>\n<a href=\"")?;
    page.text(to.octets())?;
    page.markup("\">")?;
    page.text(to.octets())?;
    page.markup("</a>\n")
}

/// The way that a link leads, which a browser goes by itself.
pub(crate) fn redirect(
    alloc: Global,
    title: &[u8],
    to: Link,
    cache_control: CacheControl,
) -> Result<Answer, AllocError>
    ensures leads { IfOk result (LeadsTo title.now to) }
    ensures kept { IfOk result (λ a. a.cache_control ≡ cache_control) }
    ensures located { IfOk result IsLocated }
{
    let mut page = Page::empty(alloc);
    put_way(&mut page, title, &to)?;
    Ok(Answer {
        status: Status::Found,
        location: Some(to.into_text()),
        media: Media::Redirect,
        cache_control,
        tag: None,
        about: None,
        title: Vec::new(alloc),
        body: page.into_octets(),
    })
}

/// The day of a moment, and the moment for programs.
#[tactic(auto, unfolding(crate::specs::Pages::moment_part))]
fn put_moment(page: &mut Page, language: Language, moment: &[u8]) -> Result<(), AllocError>
    ensures { OnOk result (page.new.octets.items ≡ page.old.octets.items ++ moment_part language moment.now) }
{
    page.phrase(
        language,
        "<p class=\"written\">",
        Phrase::Written,
        " <time datetime=\"",
    )?;
    page.text(moment)?;
    page.element("\">", day_of(moment), "</time></p>\n")
}

/// When a value was written. A timestamp of 0 says nothing.
fn put_written_at(
    page: &mut Page,
    language: Language,
    timestamp: u64,
    written: Option<String>,
) -> Result<(), AllocError>
    ensures { OnOk result (page.new.octets.items ≡ page.old.octets.items ++ written_part language timestamp (option_map string_bytes written)) }
{
    let Some(moment) = written else {
        return Ok(());
    };
    if timestamp == 0 {
        return Ok(());
    }
    put_moment(page, language, moment.as_bytes())
}

fn put_written(page: &mut Page, language: Language, value: &Value) -> Result<(), AllocError>
    ensures { OnOk result ((part : List ℕ) × IsWrittenPart language value.now part × (page.new.octets.items ≡ page.old.octets.items ++ part)) }
{
    let written = written_words(page.alloc, value)?;
    put_written_at(page, language, value.timestamp, written)
}

#[tactic(auto, unfolding(crate::specs::Pages::heading))]
fn put_heading(page: &mut Page, value: &Value) -> Result<(), AllocError>
    ensures { OnOk result (page.new.octets.items ≡ page.old.octets.items ++ heading value.now) }
{
    page.markup("<tr><th scope=\"row\"><bdi>")?;
    page.text(value.kind.as_slice())?;
    page.markup("</bdi> <small>")?;
    page.number(value.index)?;
    page.markup("</small></th>\n<td>")
}

fn put_value(page: &mut Page, language: Language, value: &Value) -> Result<(), AllocError>
    ensures { OnOk result ((section : List ℕ) × IsSection language value.now section × (page.new.octets.items ≡ page.old.octets.items ++ section)) }
{
    put_heading(page, value)?;
    put_data(page, language, value)?;
    put_written(page, language, value)?;
    page.markup("</td></tr>\n")
}

/// Whether a value is put among the URLs, or among the others.
fn is_put(are_urls: bool, value: &Value) -> bool
    ensures { result ≡ is_put are_urls value.now }
{
    if are_urls {
        is_url(value)
    } else {
        !is_url(value)
    }
}

fn put_row(page: &mut Page, language: Language, put: bool, value: &Value) -> Result<(), AllocError>
    ensures { OnOk result ((part : List ℕ) × IsRow language put value.now part × (page.new.octets.items ≡ page.old.octets.items ++ part)) }
{
    if put {
        return put_value(page, language, value);
    }
    Ok(())
}

/// The rows of those values that are URLs, or of the others.
fn put_sections(
    page: &mut Page,
    language: Language,
    are_urls: bool,
    values: &[Value],
) -> Result<(), AllocError>
    ensures { OnOk result ((part : List ℕ) × IsSections language (filter (is_put are_urls) values.now) part × (page.new.octets.items ≡ page.old.octets.items ++ part)) }
{
    for value in values {
        put_row(page, language, is_put(are_urls, value), value)?;
    }
    Ok(())
}

/// The head of a table, behind the front of its tag.
#[tactic(auto, unfolding(crate::specs::Pages::columns))]
fn put_columns(page: &mut Page, language: Language, front: &'static str) -> Result<(), AllocError>
    ensures { OnOk result (page.new.octets.items ≡ page.old.octets.items ++ columns language front.now) }
{
    page.phrase(language, front, Phrase::WhatIsKnown, "\">\n")?;
    page.phrase(
        language,
        "<thead><tr><th scope=\"col\">",
        Phrase::TypeAndIndex,
        "</th>",
    )?;
    page.phrase(
        language,
        "<th scope=\"col\">",
        Phrase::Value,
        "</th></tr></thead>\n",
    )
}

fn put_few(page: &mut Page, language: Language, values: &[Value]) -> Result<(), AllocError>
    ensures { OnOk result ((part : List ℕ) × IsFew language values.now part × (page.new.octets.items ≡ page.old.octets.items ++ part)) }
{
    put_columns(page, language, "<table aria-label=\"")?;
    page.markup("<tbody>\n")?;
    put_sections(page, language, true, values)?;
    put_sections(page, language, false, values)?;
    page.markup(END)
}

/// The rows of the values of this type.
fn put_of_type(
    page: &mut Page,
    language: Language,
    kind: &[u8],
    values: &[Value],
) -> Result<(), AllocError>
    ensures { OnOk result ((part : List ℕ) × IsSections language (filter (is_of kind.now) values.now) part × (page.new.octets.items ≡ page.old.octets.items ++ part)) }
{
    for value in values {
        put_row(page, language, is_of(kind, value), value)?;
    }
    Ok(())
}

#[tactic(auto, unfolding(crate::specs::Pages::group_head))]
fn put_group_head(page: &mut Page, kind: &[u8]) -> Result<(), AllocError>
    ensures { OnOk result (page.new.octets.items ≡ page.old.octets.items ++ group_head kind.now) }
{
    page.element(
        "<tbody>\n<tr class=\"type\"><th colspan=\"2\" scope=\"rowgroup\"><bdi>",
        kind,
        "</bdi></th></tr>\n",
    )
}

/// A type, and its values.
fn put_group(
    page: &mut Page,
    language: Language,
    kind: &[u8],
    values: &[Value],
) -> Result<(), AllocError>
    ensures { OnOk result ((part : List ℕ) × IsGroup language values.now kind.now part × (page.new.octets.items ≡ page.old.octets.items ++ part)) }
{
    put_group_head(page, kind)?;
    put_of_type(page, language, kind, values)?;
    page.markup("</tbody>\n")
}

fn has_type(kind: &[u8], values: &[Value]) -> bool
    ensures { result ≡ list_any (is_of kind.now) values.now }
{
    values.iter().any(|value| is_of(kind, value))
}

/// Whether a value is put, and is the first one of its type.
fn is_head(are_urls: bool, before: &[Value], value: &Value) -> bool
    ensures { result ≡ is_head are_urls before.now value.now }
{
    is_put(are_urls, value) && !has_type(value.kind.as_slice(), before)
}

/// The group of a value's type, where the value is its head.
fn put_group_at(
    page: &mut Page,
    language: Language,
    are_urls: bool,
    values: &[Value],
    before: &[Value],
    value: &Value,
) -> Result<(), AllocError>
    ensures { OnOk result ((part : List ℕ) × IsGroupAt language are_urls values.now before.now value.now part × (page.new.octets.items ≡ page.old.octets.items ++ part)) }
{
    if is_head(are_urls, before, value) {
        return put_group(page, language, value.kind.as_slice(), values);
    }
    Ok(())
}

fn values_before(values: &[Value], place: usize) -> &[Value]
    requires { place ≤ length values.now }
    ensures { result.now ≡ take place values.now }
{
    &values[..place]
}

/// The groups of those values that are URLs, or of the others.
fn put_groups(
    page: &mut Page,
    language: Language,
    are_urls: bool,
    values: &[Value],
) -> Result<(), AllocError>
    ensures { OnOk result ((part : List ℕ) × IsGroupsFrom language are_urls values.now [] values.now part × (page.new.octets.items ≡ page.old.octets.items ++ part)) }
{
    let mut place = 0;
    for value in values {
        let before = values_before(values, place);
        put_group_at(page, language, are_urls, values, before, value)?;
        place += 1;
    }
    Ok(())
}

fn put_many(page: &mut Page, language: Language, values: &[Value]) -> Result<(), AllocError>
    ensures { OnOk result ((part : List ℕ) × IsMany language values.now part × (page.new.octets.items ≡ page.old.octets.items ++ part)) }
{
    put_columns(page, language, "<table class=\"types\" aria-label=\"")?;
    put_groups(page, language, true, values)?;
    put_groups(page, language, false, values)?;
    page.markup("</table>\n")
}

fn put_table(page: &mut Page, language: Language, values: &[Value]) -> Result<(), AllocError>
    ensures { OnOk result ((part : List ℕ) × IsTable language values.now part × (page.new.octets.items ≡ page.old.octets.items ++ part)) }
{
    if values.len() < MANY {
        put_few(page, language, values)
    } else {
        put_many(page, language, values)
    }
}

fn put_values(page: &mut Page, language: Language, values: &[Value]) -> Result<(), AllocError>
    ensures { OnOk result ((part : List ℕ) × IsValuesPart language values.now part × (page.new.octets.items ≡ page.old.octets.items ++ part)) }
{
    if values.is_empty() {
        return page.phrase(language, "<p>", Phrase::NothingPublic, "</p>\n");
    }
    put_table(page, language, values)
}

#[tactic(auto, unfolding(crate::specs::Pages::json_part))]
fn put_json_link(page: &mut Page, language: Language, name: &Name) -> Result<(), AllocError>
    ensures { OnOk result (page.new.octets.items ≡ page.old.octets.items ++ json_part language name.now) }
{
    let to = Link::to_json(page.alloc, name)?;
    page.markup("<p><small><a href=\"")?;
    page.text(to.octets())?;
    page.phrase(language, "\">", Phrase::AsJson, "</a></small></p>\n")
}

/// The values of a handle, and why they are shown where its address leads nowhere.
pub(crate) fn values_page(
    alloc: Global,
    language: Language,
    name: &Name,
    note: Note,
    values: &[Value],
) -> Result<Answer, AllocError>
    ensures told { IfOk result (Tells Status.Success Media.Page) }
    ensures kept { IfOk result (λ a. IsCacheControlOf values.now a.cache_control) }
    ensures about { IfOk result (λ a. option_map string_bytes a.about ≡ Some (name_in_address name.now)) }
    ensures title { IfOk result (λ a. a.title.items ≡ name.now) }
    ensures body { IfOk result (λ a. IsPageOf language name.now note values.now a.body.items) }
{
    let title = Vec::from_slice(alloc, name.sent())?;
    let mut page = Page::about(alloc, name.sent())?;
    put_note(&mut page, language, note)?;
    put_values(&mut page, language, values)?;
    put_another(&mut page, language)?;
    put_json_link(&mut page, language, name)?;
    let about = name_in_address(alloc, name.sent())?;
    let answer = page_answer(Status::Success, cache_control_of(values), title, page);
    Ok(Answer {
        about: Some(about),
        ..answer
    })
}

#[tactic(auto, unfolding(crate::specs::Pages::known_part))]
fn put_known_link(page: &mut Page, language: Language, name: &Name) -> Result<(), AllocError>
    ensures { OnOk result (page.new.octets.items ≡ page.old.octets.items ++ known_part language name.now) }
{
    let to = Link::to_values(page.alloc, name)?;
    page.markup("<p><small><a href=\"")?;
    page.text(to.octets())?;
    page.phrase(language, "\">", Phrase::KnownAboutIt, "</a></small></p>\n")
}

/// The page of a handle that is gone, by the value that says so.
fn gone_body(
    alloc: Global,
    language: Language,
    name: &Name,
    gone: &Value,
) -> Result<Page, AllocError>
    ensures { IfOk result (λ page. IsGonePage language name.now gone.now page.octets.items) }
{
    let mut page = Page::headed(alloc, language, Phrase::GoneHeading)?;
    put_name(&mut page, name.sent())?;
    put_data(&mut page, language, gone)?;
    put_written(&mut page, language, gone)?;
    put_another(&mut page, language)?;
    put_known_link(&mut page, language, name)?;
    Ok(page)
}

fn gone_title(alloc: Global, language: Language, name: &[u8]) -> Result<Vec<u8>, AllocError>
    ensures { IfOk result (λ title. title.items ≡ words language phrases.GoneTitle ++ name.now) }
{
    let mut title = Vec::from_slice(alloc, language.words(Phrase::GoneTitle).as_bytes())?;
    title.extend_from_slice(name)?;
    Ok(title)
}

/// That a handle is gone, by one of its values: why, and when that was written.
pub(crate) fn gone_page(
    alloc: Global,
    language: Language,
    name: &Name,
    gone: &Value,
    values: &[Value],
) -> Result<Answer, AllocError>
    ensures { IfOk result (IsGone language name.now gone.now values.now) }
{
    let title = gone_title(alloc, language, name.sent())?;
    let page = gone_body(alloc, language, name, gone)?;
    let about = name_in_address(alloc, name.sent())?;
    let answer = page_answer(Status::Gone, cache_control_of(values), title, page);
    Ok(Answer {
        about: Some(about),
        ..answer
    })
}
