//! Links to forms, below pages.

ghost use Rattle.std.specs.Prelude.{◌≡◌, ◌↔◌, ◌++◌, IfOk, IsTrue, OnOk};
ghost use Rattle.hdl_forms.specs.FormLink.{HasFormLink, HasLinkTo, form_link_markup, link_markup};

use hdl_languages::{Language, Phrase};
use hdl_proxy::{Answer, CacheControl, Media, Status};
use std::alloc::{AllocError, Global};

/// The fronts of the links.
const CHANGE: &str = "<p><small><a href=\"?edit\">";

const CHANGE_ANY: &str = "<p><small><a href=\"/?edit\">";

const CREATE: &str = "<p><small><a href=\"/?new\">";

const LIST: &str = "<p><small><a href=\"/?list\">";

/// The forms to which a page leads.
#[derive(Clone, Copy, PartialEq, Eq)]
pub enum FormLink {
    /// That of the handle whose address the page has.
    Change,
    /// Those of any handle and of a new one.
    ChangeOrCreate,
    /// The same, and that of lists.
    ChangeCreateOrList,
}

/// Adds a link with this front, whose words are this phrase.
#[tactic(auto, unfolding(crate::specs::FormLink::link_markup))]
fn put_link(
    body: &mut Vec<u8>,
    language: Language,
    front: &'static str,
    phrase: Phrase,
) -> Result<(), AllocError>
    ensures { OnOk result (body.new.items ≡ body.old.items ++ link_markup language front.now phrase) }
{
    body.extend_from_slice(front.as_bytes())?;
    body.extend_from_slice(language.words(phrase).as_bytes())?;
    body.extend_from_slice(b"</a></small></p>\n")
}

fn put_form_link(
    body: &mut Vec<u8>,
    language: Language,
    form_link: FormLink,
) -> Result<(), AllocError>
    ensures { OnOk result (body.new.items ≡ body.old.items ++ form_link_markup language form_link) }
{
    match form_link {
        FormLink::Change => put_link(body, language, CHANGE, Phrase::LinkToChange),
        FormLink::ChangeOrCreate => {
            put_link(body, language, CHANGE_ANY, Phrase::LinkToChangeAny)?;
            put_link(body, language, CREATE, Phrase::LinkToCreate)
        }
        FormLink::ChangeCreateOrList => {
            put_link(body, language, CHANGE_ANY, Phrase::LinkToChangeAny)?;
            put_link(body, language, CREATE, Phrase::LinkToCreate)?;
            put_link(body, language, LIST, Phrase::LinkToList)
        }
    }
}

/// Whether it is a page of a handle, or the front page: one that others may keep, as no page of a form is.
fn has_form_link(answer: &Answer) -> bool
    ensures { IsTrue result ↔ HasFormLink answer.now }
{
    answer.media == Media::Page
        && matches!(answer.status, Status::Success | Status::Gone)
        && answer.cache_control != CacheControl::Never
}

/// The answer with the links to these forms below it, in this language, if it is a page that others may keep and that isn't an error; and else as it is. Who keeps such a page asks anew each time, since what it shows may be changed here.
pub fn with_form_link(
    alloc: Global,
    language: Language,
    form_link: FormLink,
    answer: Answer,
) -> Result<Answer, AllocError>
    ensures { IfOk result (HasLinkTo language form_link answer) }
{
    if !has_form_link(&answer) {
        return Ok(answer);
    }
    let mut body = Vec::from_slice(alloc, &answer.body)?;
    put_form_link(&mut body, language, form_link)?;
    Ok(Answer {
        body,
        cache_control: CacheControl::Seconds(0),
        ..answer
    })
}
