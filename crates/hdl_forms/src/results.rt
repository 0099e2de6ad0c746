//! The page of what came of a form's order.

ghost use Rattle.std.specs.Prelude.{◌≡◌, ◌⊎◌, true, IfOk};
ghost use Rattle.hdl_proxy.specs.declared.answer.Status.TheVariants.{Success, Created};
ghost use Rattle.hdl_forms.specs.Confirm.{IsUnclear, done_part, is_unclear};
ghost use Rattle.hdl_forms.specs.Pages.{Has, IsFormPage};
ghost use Rattle.hdl_forms.specs.Taken.{page_status};

use crate::confirm::{confirm_page, done_page, says_gone};
use crate::fault::{Fault, Field, fault_of_gone, words_of_code};
use crate::pages::FilledForm;
use hdl_msg::ResponseCode;
use hdl_proxy::{Answer, Status};
use serde_json::Value as Json;
use std::alloc::{AllocError, Global};

/// Code and message of an answer in JSON.
pub(crate) fn told_in(alloc: Global, answer: &Answer) -> Result<Option<Json>, AllocError> {
    let Ok(text) = str::from_utf8(&answer.body) else {
        return Ok(None);
    };
    match Json::from_str(alloc, text) {
        Ok(json) => Ok(Some(json)),
        Err(error) if error.is_memory() => Err(AllocError),
        Err(_) => Ok(None),
    }
}

/// Beside which field a refusal is shown.
fn field_of(status: Status, code: Option<u64>) -> Field {
    match status {
        Status::Unauthorized
            if code == Some(u64::from(ResponseCode::AuthenticationFailed.number())) =>
            Field::Secret,
        Status::Unauthorized | Status::Forbidden => Field::Key,
        _ => Field::Top,
    }
}

/// What is wrong, as an answer of this status says in JSON.
pub(crate) fn fault_told(status: Status, told: Option<&Json>) -> Fault<'_> {
    let words = told
        .and_then(|json| json.get("message"))
        .and_then(|json| json.as_str());
    let code = told
        .and_then(|json| json.get("responseCode"))
        .and_then(|json| json.as_u64());
    Fault {
        field: field_of(status, code),
        words: words_of_code(code).unwrap_or(words.unwrap_or("The server couldn't answer.")),
    }
}

/// The status of a page: a browser would ask for a password by itself at 401.
pub(crate) fn page_status(status: Status) -> Status
    ensures { result ≡ page_status status }
{
    match status {
        Status::Unauthorized => Status::Forbidden,
        other => other,
    }
}

/// The page of what came of a form's order: that it was done, or the form again with what the answer in JSON says. Browsers keep what was there before a change for up to this many seconds.
pub fn result_page(
    alloc: Global,
    form: &FilledForm,
    answer: &Answer,
    kept: u32,
) -> Result<Answer, AllocError>
    ensures page { IfOk result (IsFormPage (page_status answer.now.status)) }
    ensures fresh { (answer.now.status ≡ Success) ⊎ (answer.now.status ≡ Created) → IfOk result (λ page. Has (done_part form.now.draft.task form.now.name.items kept) page.body.items) }
    ensures unclear { is_unclear answer.now.status ≡ true → IfOk result (IsUnclear form.now.name.items) }
{
    if matches!(answer.status, Status::Success | Status::Created) {
        return done_page(alloc, answer.status, form, kept);
    }
    let told = told_in(alloc, answer)?;
    let status = page_status(answer.status);
    if answer.status == Status::Conflict && says_gone(&form.draft) {
        return confirm_page(alloc, status, form, fault_of_gone());
    }
    let fault = fault_told(answer.status, told.as_ref());
    confirm_page(alloc, status, form, fault)
}
