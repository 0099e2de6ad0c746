//! The pages of a change: before it is made, where someone else came first, and after it. None of them is handed a key.

ghost use Rattle.std.specs.Prelude.{◌≡◌, ◌⊎◌, ◌++◌, ◌∷◌, [], true, IfOk, string_bytes};
ghost use Rattle.hdl_forms.specs.Confirm.{HasWarnings, IsUnclear, done_part, edit_address, followed_address, fresh_address, is_unclear, kept_part, ways_on, ways_part};
ghost use Rattle.hdl_forms.specs.Fields.{with_keys};
ghost use Rattle.hdl_forms.specs.Pages.{Has, IsFormPage};
ghost use Rattle.hdl_forms.specs.Warnings.{warnings};

use crate::change::is_create;
use crate::draft::{Draft, Task};
use crate::fault::{Fault, Field, NO_FAULT};
use crate::markup::{Template, key_template, secret_template};
use crate::pages::{ABSOLUTE, FilledForm, answer_of, is_editable, refused_page, seconds_of};
use crate::template::{FormPage, Texts};
use crate::warnings::warnings;
use hdl_limits::Octets;
use hdl_proxy::{Answer, Status, path_of};
use hdl_value::{HS_GONE, Value};
use hdl_value_lines::permission_digits;
use std::alloc::{AllocError, Global};

/// What stands for a value that isn't there.
const NOTHING: &[u8] = b"(nothing)";

/// Whether the change says that the handle is gone.
pub(crate) fn says_gone(draft: &Draft) -> bool {
    draft.task == Task::Add && draft.kind.as_slice() == HS_GONE
}

/// What is asked before a change is made.
fn question(draft: &Draft) -> &'static str {
    match draft.task {
        Task::Change => "Change this value?",
        Task::Add if says_gone(draft) => "Say that this handle is gone?",
        Task::Add => "Add this value?",
        Task::Remove => "Remove this value?",
        Task::Create => "Create this handle?",
    }
}

/// What is said after it.
fn done_words(draft: &Draft) -> &'static str {
    match draft.task {
        Task::Change => "The value is changed",
        Task::Add if says_gone(draft) => "Readers are told that it is gone",
        Task::Add => "The value is added",
        Task::Remove => "The value is removed",
        Task::Create => "The handle is created",
    }
}

/// The words of the button that makes a change.
fn button_word(draft: &Draft) -> &'static str {
    match draft.task {
        Task::Change => "Change it",
        Task::Add if says_gone(draft) => "Say so",
        Task::Add => "Add it",
        Task::Remove => "Remove it",
        Task::Create => "Create it",
    }
}

/// The word by which a form says its task.
fn task_word(task: Task) -> &'static str {
    match task {
        Task::Change => "change",
        Task::Add => "add",
        Task::Remove => "remove",
        Task::Create => "create",
    }
}

/// The word of the address of a task's form.
fn address_word(task: Task) -> &'static str {
    match task {
        Task::Create => "new",
        _ => "edit",
    }
}

/// Where the form of a task is opened again.
fn form_address(task: Task) -> &'static str {
    match task {
        Task::Create => "/?new",
        _ => "?edit",
    }
}

fn or_nothing(text: &[u8]) -> &[u8] {
    if text.is_empty() { NOTHING } else { text }
}

/// What a change is, with what stands there before and after it.
fn change_part(
    alloc: Global,
    heading: &'static str,
    form: &FilledForm,
    before: &'static str,
    after: &'static str,
) -> Result<FormPage, AllocError> {
    let draft = &form.draft;
    let texts = Texts::new(alloc).and(heading.as_bytes())?.and(&form.name)?;
    let texts = texts.and(draft.kind.as_slice())?.and_number(draft.index)?;
    let texts = texts.and(before.as_bytes())?;
    let texts = texts.and(or_nothing(draft.old.as_slice()))?;
    let texts = texts.and(after.as_bytes())?;
    let texts = texts.and(or_nothing(draft.text.as_slice()))?;
    FormPage::new(alloc).with(Template::Shown, texts)
}

/// The page with the fields of a key and its secret, and what is wrong with them.
pub(crate) fn with_keys(
    alloc: Global,
    page: FormPage,
    fault: Fault<'_>,
) -> Result<FormPage, AllocError>
    ensures { IfOk result (λ after. (at_key at_secret : _) × (after ≡ with_keys page at_key at_secret)) }
{
    let at_key = fault.at(Field::Key);
    let at_secret = fault.at(Field::Secret);
    let page = page.with(key_template(at_key), Texts::new(alloc).and(at_key)?)?;
    page.with(
        secret_template(at_secret),
        Texts::new(alloc).and(at_secret)?,
    )
}

/// The form that asks for the key and its secret.
fn key_form(alloc: Global, form: &FilledForm, fault: Fault<'_>) -> Result<FormPage, AllocError> {
    let draft = &form.draft;
    let place = address_word(draft.task).as_bytes();
    let texts = Texts::new(alloc).and(place)?.and(&form.token)?;
    let texts = texts.and(task_word(draft.task).as_bytes())?;
    let texts = texts.and_number(draft.index)?.and(draft.kind.as_slice())?;
    let texts = texts.and_number(draft.ttl)?;
    let texts = texts.and(&permission_digits(draft.permissions))?;
    let texts = texts.and(draft.old.as_slice())?.and(draft.text.as_slice())?;
    let texts = texts.and(&form.name)?.and(fault.at(Field::Top))?;
    let page = FormPage::new(alloc).with(Template::Confirm, texts)?;
    let page = with_keys(alloc, page, fault)?;
    let button = Texts::new(alloc).and(button_word(draft).as_bytes())?;
    page.with(Template::ConfirmButton, button)
}

/// The address of a handle's values as the server has them now: no browser has kept them.
fn fresh_address(alloc: Global, name: &[u8]) -> Result<String, AllocError>
    ensures { IfOk result (λ text. string_bytes text ≡ fresh_address name.now) }
{
    let mut address = path_of(alloc, name)?;
    address.push_str("?noredirect&auth")?;
    Ok(address)
}

/// The address at which a handle is followed as the server has it now.
fn followed_address(alloc: Global, name: &[u8]) -> Result<String, AllocError>
    ensures { IfOk result (λ text. string_bytes text ≡ followed_address name.now) }
{
    let mut address = path_of(alloc, name)?;
    address.push_str("?auth")?;
    Ok(address)
}

/// The address of a handle's form.
fn edit_address(alloc: Global, name: &[u8]) -> Result<String, AllocError>
    ensures { IfOk result (λ text. string_bytes text ≡ edit_address name.now) }
{
    let mut address = path_of(alloc, name)?;
    address.push_str("?edit")?;
    Ok(address)
}

/// Whether the handle may be otherwise than the form showed it: something was there already, or the change may have been made.
fn is_unclear(status: Status) -> bool
    ensures { result ≡ is_unclear status }
{
    matches!(status, Status::Conflict | Status::BadGateway)
}

/// The ways from a change that isn't made: to the handle as it is now, if that may be otherwise than the form showed it, and to a new form.
fn ways_part(alloc: Global, status: Status, form: &FilledForm) -> Result<FormPage, AllocError>
    ensures { IfOk result (λ part. (address : _) × (part ≡ ways_part status form.now.name.items address)) }
{
    let back = form_address(form.draft.task).as_bytes();
    let back = Texts::new(alloc).and(back)?;
    if !is_unclear(status) {
        return FormPage::new(alloc).with(Template::Back, back);
    }
    let address = fresh_address(alloc, &form.name)?;
    let look = Texts::new(alloc).and(address.as_bytes())?;
    let page = FormPage::new(alloc).with(Template::Look, look)?;
    page.with(Template::Back, back)
}

/// The title of a page that asks for a change.
fn title_of(draft: &Draft, fault: Fault<'_>) -> (&'static str, &'static [u8]) {
    let heading = question(draft);
    if fault.words.is_empty() {
        (heading, b"")
    } else {
        ("Not done: ", heading.as_bytes())
    }
}

/// The page that shows a change before it is made, with what may be wrong with it, and asks for the key and its secret.
pub(crate) fn confirm_page(
    alloc: Global,
    status: Status,
    form: &FilledForm,
    fault: Fault<'_>,
) -> Result<Answer, AllocError>
    ensures page { IfOk result (IsFormPage status) }
    ensures warned { IfOk result (HasWarnings form.now.name.items form.now.draft) }
    ensures unclear { is_unclear status ≡ true → IfOk result (IsUnclear form.now.name.items) }
{
    let page = change_part(alloc, question(&form.draft), form, "Now", "Then")?;
    let page = page.join(warnings(alloc, &form.name, &form.draft)?)?;
    let page = page.join(key_form(alloc, form, fault)?)?;
    let page = page.join(ways_part(alloc, status, form)?)?;
    let (lead, behind) = title_of(&form.draft, fault);
    answer_of(alloc, status, lead, behind, page)
}

/// The change that can still be made, now that the value isn't as the form showed it: of the same type at least, and one that forms change. If the value is gone, it is added. A value that is gone can't be removed.
fn draft_of_now(alloc: Global, draft: Draft, there: Option<Value>) -> Option<Draft> {
    match there {
        Some(value) if is_editable(&value) && value.kind.as_slice() == draft.kind.as_slice() =>
            Some(Draft {
                ttl: seconds_of(&value),
                permissions: value.permissions,
                old: value.bytes,
                ..draft
            }),
        None if draft.task == Task::Change => Some(Draft {
            task: Task::Add,
            old: Octets::new(Vec::new(alloc)),
            ..draft
        }),
        _ => None,
    }
}

/// Whether what is there now is just what the change would put there.
fn is_made(draft: &Draft, there: Option<&Value>) -> bool {
    match there {
        Some(value) => {
            draft.task == Task::Change
                && value.kind.as_slice() == draft.kind.as_slice()
                && value.bytes.as_slice() == draft.text.as_slice()
                && value.ttl[0] != ABSOLUTE
                && seconds_of(value) == draft.ttl
                && value.permissions == draft.permissions
        }
        None => draft.task == Task::Remove,
    }
}

/// The page of a change whose value someone else changed meanwhile: what the form showed, what is there now, and the change, which can still be made.
pub(crate) fn conflict_page(
    alloc: Global,
    form: FilledForm,
    there: Option<Value>,
) -> Result<Answer, AllocError>
    ensures { IfOk result (IsFormPage Status.Conflict) }
{
    let FilledForm { name, draft, token } = form;
    if is_made(&draft, there.as_ref()) {
        let why = "The value is so already";
        let advice = "Nothing was done. Perhaps you sent the form twice.";
        return refused_page(alloc, Status::Conflict, why, advice, "?edit");
    }
    let shown = Vec::from_slice(alloc, draft.old.as_slice())?;
    let Some(draft) = draft_of_now(alloc, draft, there) else {
        let why = "Someone else changed this value";
        let advice = "Nothing was done. It was removed, or is now one that this form can't change.";
        return refused_page(alloc, Status::Conflict, why, advice, "?edit");
    };
    let texts = Texts::new(alloc).and(&name)?;
    let texts = texts.and(draft.kind.as_slice())?.and_number(draft.index)?;
    let texts = texts.and(or_nothing(&shown))?;
    let texts = texts.and(or_nothing(draft.old.as_slice()))?;
    let texts = texts.and(or_nothing(draft.text.as_slice()))?;
    let page = FormPage::new(alloc).with(Template::Changed, texts)?;
    let form = FilledForm { name, draft, token };
    let page = page.join(key_form(alloc, &form, NO_FAULT)?)?;
    let page = page.join(ways_part(alloc, Status::Conflict, &form)?)?;
    let lead = "Not done: someone else changed ";
    answer_of(alloc, Status::Conflict, lead, &form.name, page)
}

/// For how many seconds browsers keep where a handle led before a change. A new one led nowhere.
fn kept_part(alloc: Global, task: Task, kept: u32) -> Result<FormPage, AllocError>
    ensures { IfOk result (λ part. part ≡ kept_part task kept) }
{
    let part = FormPage::new(alloc);
    if is_create(task) {
        return Ok(part);
    }
    part.with(Template::Kept, Texts::new(alloc).and_number(kept)?)
}

/// The ways on from a change that was made.
fn ways_on(alloc: Global, name: &[u8]) -> Result<FormPage, AllocError>
    ensures { IfOk result (λ part. part ≡ ways_on name.now) }
{
    let fresh = fresh_address(alloc, name)?;
    let followed = followed_address(alloc, name)?;
    let edit = edit_address(alloc, name)?;
    let texts = Texts::new(alloc).and(fresh.as_bytes())?;
    let texts = texts.and(followed.as_bytes())?.and(edit.as_bytes())?;
    FormPage::new(alloc).with(Template::Done, texts)
}

/// The page that says that a change was made. Browsers keep what was there before for up to this many seconds.
pub(crate) fn done_page(
    alloc: Global,
    status: Status,
    form: &FilledForm,
    kept: u32,
) -> Result<Answer, AllocError>
    ensures page { IfOk result (IsFormPage status) }
    ensures fresh { IfOk result (λ page. Has (done_part form.now.draft.task form.now.name.items kept) page.body.items) }
{
    let heading = done_words(&form.draft);
    let page = change_part(alloc, heading, form, "Before", "Now")?;
    let page = page.join(kept_part(alloc, form.draft.task, kept)?)?;
    let page = page.join(ways_on(alloc, &form.name)?)?;
    answer_of(alloc, status, heading, b"", page)
}
