//! The pages with forms. None of them is handed a key.

ghost use Rattle.std.specs.Prelude.{◌≡◌, ◌++◌, IfOk};
ghost use Rattle.hdl_forms.specs.Fields.{field_part};
ghost use Rattle.hdl_forms.specs.Pages.{IsFormPage};

use crate::draft::{Draft, are_printed, is_type};
use crate::fault::{Fault, Field, NO_FAULT};
use crate::markup::{Template, field_template};
use crate::template::{FormPage, Texts};
use hdl_proxy::{Answer, CacheControl, Media, Status, is_shown};
use hdl_value::{HS_GONE, URL, Value};
use hdl_value_lines::permission_digits;
use std::alloc::{AllocError, Global};

/// The kind of a TTL that is a moment.
pub(crate) const ABSOLUTE: u8 = 1;

/// A form that was filled in: which handle, which change of it, and the token of the form that comes next. The key and its secret aren't in it.
#[derive(Drop)]
pub struct FilledForm {
    pub name: Vec<u8>,
    pub draft: Draft,
    pub token: Vec<u8>,
}

/// Of which handle a value's form is, its token, and whether the value is a new one.
#[derive(Clone, Copy)]
pub(crate) struct FormOf<'a> {
    pub(crate) name: &'a [u8],
    pub(crate) token: &'a [u8],
    pub(crate) is_new: bool,
}

/// The texts of a form's fields, as they stand in it.
#[derive(Clone, Copy)]
pub(crate) struct FieldTexts<'a> {
    pub(crate) index: &'a [u8],
    pub(crate) kind: &'a [u8],
    pub(crate) ttl: &'a [u8],
    pub(crate) permissions: &'a [u8],
    pub(crate) old: &'a [u8],
    pub(crate) text: &'a [u8],
}

/// The answer of a page about this handle, which no one keeps.
pub(crate) fn answer_of(
    alloc: Global,
    status: Status,
    lead: &'static str,
    name: &[u8],
    page: FormPage,
) -> Result<Answer, AllocError>
    ensures page { IfOk result (IsFormPage status) }
    ensures body { IfOk result (λ answer. answer.body.items ≡ page) }
{
    let mut title = Vec::from_slice(alloc, lead.as_bytes())?;
    title.extend_from_slice(name)?;
    let answer = Answer::new(
        alloc,
        status,
        Media::Page,
        CacheControl::Never,
        page.into_octets(),
    );
    Ok(Answer { title, ..answer })
}

/// A field that is typed: which, what is said of it, what stands in it, an example, and which keys a telephone shows.
#[derive(Clone, Copy)]
pub(crate) struct TypedField<'a> {
    pub(crate) id: &'a [u8],
    pub(crate) label: &'a [u8],
    pub(crate) note: &'a [u8],
    pub(crate) name: &'a [u8],
    pub(crate) value: &'a [u8],
    pub(crate) placeholder: &'a [u8],
    pub(crate) keys: &'a [u8],
}

/// The text of a value.
const TEXT: TypedField<'static> = TypedField {
    id: b"text",
    label: b"Value",
    note: b"",
    name: b"text",
    value: b"",
    placeholder: b"",
    keys: b"text",
};

/// A field, and what is wrong with it.
pub(crate) fn with_field(
    alloc: Global,
    page: FormPage,
    field: TypedField<'_>,
    fault: &[u8],
) -> Result<FormPage, AllocError>
    ensures { IfOk result (λ after. after ≡ page ++ field_part field.entry fault.now) }
{
    let id = field.id;
    let texts = Texts::of(
        alloc,
        &[
            id,
            field.label,
            field.note,
            id,
            field.name,
            field.value,
            field.placeholder,
            field.keys,
            id,
            id,
            fault,
        ],
    )?;
    page.with(field_template(fault), texts)
}

/// The form of a value.
fn with_value(
    alloc: Global,
    page: FormPage,
    token: &[u8],
    fields: FieldTexts<'_>,
    fault: Fault<'_>,
) -> Result<FormPage, AllocError> {
    let texts = Texts::new(alloc).and(token)?.and(fields.index)?;
    let texts = texts.and(fields.kind)?.and(fields.ttl)?;
    let texts = texts.and(fields.permissions)?.and(fields.old)?;
    let page = page.with(Template::Value, texts)?;
    let mut id = Vec::from_slice(alloc, b"text-")?;
    id.extend_from_slice(fields.index)?;
    let text = TypedField {
        id: &id,
        label: fields.kind,
        note: fields.index,
        name: b"text",
        value: fields.text,
        placeholder: b"",
        keys: b"text",
    };
    let page = with_field(alloc, page, text, fault.at(Field::Text))?;
    page.with(Template::ValueButtons, Texts::new(alloc))
}

/// The form of a new value.
fn with_new_value(
    alloc: Global,
    page: FormPage,
    token: &[u8],
    fields: FieldTexts<'_>,
    fault: Fault<'_>,
) -> Result<FormPage, AllocError> {
    let page = page.with(Template::Add, Texts::new(alloc).and(token)?)?;
    let kind = TypedField {
        id: b"type",
        label: b"Type, such as URL or EMAIL",
        name: b"type",
        value: fields.kind,
        ..TEXT
    };
    let page = with_field(alloc, page, kind, fault.at(Field::Type))?;
    let index = TypedField {
        id: b"index",
        label: b"Index, a number that no value of the handle has",
        name: b"index",
        value: fields.index,
        keys: b"numeric",
        ..TEXT
    };
    let page = with_field(alloc, page, index, fault.at(Field::Index))?;
    let text = TypedField {
        value: fields.text,
        ..TEXT
    };
    let page = with_field(alloc, page, text, fault.at(Field::Text))?;
    page.with(Template::AddButton, Texts::new(alloc))
}

/// How long a value may be kept, in seconds.
pub(crate) fn seconds_of(value: &Value) -> u32 {
    let [_, a, b, c, d] = value.ttl;
    u32::from_be_bytes([a, b, c, d])
}

fn is_line(text: &[u8]) -> bool {
    str::from_utf8(text).is_ok() && are_printed(text)
}

/// Whether a form can say all of a value: everyone may read it, its type and its text are on one line each, and its TTL is a number of seconds.
pub(crate) fn is_editable(value: &Value) -> bool {
    is_shown(value)
        && value.ttl[0] != ABSOLUTE
        && is_type(value.kind.as_slice())
        && is_line(value.bytes.as_slice())
}

fn is_of(kind: &[u8], value: &Value) -> bool {
    value.kind.as_slice() == kind
}

/// The form of a value that is there.
fn with_present_value(
    alloc: Global,
    page: FormPage,
    token: &[u8],
    value: &Value,
) -> Result<FormPage, AllocError> {
    let index = format!(in alloc; "{}", value.index)?;
    let ttl = format!(in alloc; "{}", seconds_of(value))?;
    let permissions = permission_digits(value.permissions);
    let texts = FieldTexts {
        index: index.as_bytes(),
        kind: value.kind.as_slice(),
        ttl: ttl.as_bytes(),
        permissions: &permissions,
        old: value.bytes.as_slice(),
        text: value.bytes.as_slice(),
    };
    with_value(alloc, page, token, texts, NO_FAULT)
}

/// The forms of those values that are URLs, or of the others.
fn with_values(
    alloc: Global,
    page: FormPage,
    token: &[u8],
    are_urls: bool,
    values: &[Value],
) -> Result<FormPage, AllocError> {
    let mut page = page;
    for value in values {
        if is_editable(value) && is_of(URL, value) == are_urls {
            page = with_present_value(alloc, page, token, value)?;
        }
    }
    Ok(page)
}

/// The lowest index that none of these values has.
fn free_index(values: &[Value]) -> u32 {
    for index in 1..u32::MAX {
        if !values.iter().any(|value| value.index == index) {
            return index;
        }
    }
    u32::MAX
}

/// The forms by which a value is added.
fn with_additions(
    alloc: Global,
    page: FormPage,
    token: &[u8],
    values: &[Value],
) -> Result<FormPage, AllocError> {
    let index = format!(in alloc; "{}", free_index(values))?;
    let texts = FieldTexts {
        index: index.as_bytes(),
        kind: b"",
        ttl: b"",
        permissions: b"",
        old: b"",
        text: b"",
    };
    let page = with_new_value(alloc, page, token, texts, NO_FAULT)?;
    if values.iter().any(|value| is_of(HS_GONE, value)) {
        return Ok(page);
    }
    let texts = Texts::new(alloc).and(token)?.and(index.as_bytes())?;
    page.with(Template::Gone, texts)
}

/// The page with the forms of a handle's values: the URLs, the others, and what may be added.
pub(crate) fn values_page(
    alloc: Global,
    name: &[u8],
    values: &[Value],
    token: &[u8],
) -> Result<Answer, AllocError>
    ensures { IfOk result (IsFormPage Status.Success) }
{
    let texts = Texts::new(alloc).and(name)?.and(b"")?;
    let page = FormPage::new(alloc).with(Template::Values, texts)?;
    let page = page.with(Template::OneAtATime, Texts::new(alloc))?;
    let page = with_values(alloc, page, token, true, values)?;
    let page = with_values(alloc, page, token, false, values)?;
    let page = if values.iter().any(is_editable) {
        page
    } else {
        page.with(Template::None, Texts::new(alloc))?
    };
    let page = with_additions(alloc, page, token, values)?;
    answer_of(alloc, Status::Success, "Change ", name, page)
}

/// The page with the form of a value that has a fault: a value that is there, or a new one.
pub(crate) fn faulty_page(
    alloc: Global,
    status: Status,
    about: FormOf<'_>,
    texts: FieldTexts<'_>,
    fault: Fault<'_>,
) -> Result<Answer, AllocError>
    ensures { IfOk result (IsFormPage status) }
{
    let FormOf {
        name,
        token,
        is_new,
    } = about;
    let top = Texts::new(alloc).and(name)?.and(fault.at(Field::Top))?;
    let page = FormPage::new(alloc).with(Template::Values, top)?;
    let page = if is_new {
        with_new_value(alloc, page, token, texts, fault)?
    } else {
        with_value(alloc, page, token, texts, fault)?
    };
    let page = page.with(Template::Back, Texts::new(alloc).and(b"?edit")?)?;
    answer_of(alloc, status, "Not done: change ", name, page)
}

/// The form of a new handle, with what is wrong with it.
fn create_form(
    alloc: Global,
    name: &[u8],
    text: &[u8],
    token: &[u8],
    fault: Fault<'_>,
) -> Result<FormPage, AllocError> {
    let top = Texts::new(alloc).and(fault.at(Field::Top))?.and(token)?;
    let page = FormPage::new(alloc).with(Template::Create, top)?;
    let handle = TypedField {
        id: b"handle",
        label: b"Its name: a prefix, a slash and a local name",
        name: b"handle",
        value: name,
        placeholder: b"10/a",
        ..TEXT
    };
    let page = with_field(alloc, page, handle, fault.at(Field::Handle))?;
    let url = TypedField {
        label: b"The address to which it leads",
        value: text,
        placeholder: b"https://example.org/a",
        ..TEXT
    };
    let page = with_field(alloc, page, url, fault.at(Field::Text))?;
    page.with(Template::CreateButton, Texts::new(alloc))
}

/// The page with the form of a new handle.
pub(crate) fn create_page(
    alloc: Global,
    status: Status,
    name: &[u8],
    text: &[u8],
    token: &[u8],
    fault: Fault<'_>,
) -> Result<Answer, AllocError>
    ensures { IfOk result (IsFormPage status) }
{
    let page = create_form(alloc, name, text, token, fault)?;
    if fault.words.is_empty() {
        return answer_of(alloc, status, "Create a handle", b"", page);
    }
    let page = page.with(Template::Back, Texts::new(alloc).and(b"/?new")?)?;
    answer_of(alloc, status, "Not done: create a handle", b"", page)
}

/// The page of a form that isn't taken: why, what to do, and the address of a new one.
pub(crate) fn refused_page(
    alloc: Global,
    status: Status,
    why: &'static str,
    advice: &'static str,
    place: &'static str,
) -> Result<Answer, AllocError>
    ensures { IfOk result (IsFormPage status) }
{
    let texts = Texts::new(alloc).and(why.as_bytes())?;
    let texts = texts.and(advice.as_bytes())?.and(place.as_bytes())?;
    let page = FormPage::new(alloc).with(Template::Refused, texts)?;
    answer_of(alloc, status, why, b"", page)
}
