//! From a request of a form to a page, or to an order.

ghost use Rattle.std.specs.Prelude.{◌≡◌, ◌↔◌, ⊤, None, Ok, true, false, codes, option_copied, IfOk, IsSomeAnd, IsTrue};
ghost use Rattle.hdl_proxy.specs.Query.{texts_of};
ghost use Rattle.hdl_proxy.specs.declared.answer.Status.{Status};
ghost use Rattle.hdl_proxy.specs.declared.answer.Status.TheVariants.{Success, Forbidden, BadRequest};
ghost use Rattle.hdl_forms.specs.Address.{IsAddress};
ghost use Rattle.hdl_forms.specs.Draft.{draft_in};
ghost use Rattle.hdl_forms.specs.Origin.{is_same_origin};
ghost use Rattle.hdl_forms.specs.Pages.{IsFormPage};
ghost use Rattle.hdl_forms.specs.Taken.{IsOrderOf, IsPlain, IsStep, IsCircular, IsNamed, IsWarned, about, fields_of, subject_of, text_in};
ghost use Rattle.hdl_forms.specs.Token.{accepts};

use crate::address::{is_address, leads_back};
use crate::change::{FormOrder, TypedKey, order_of};
use crate::confirm::confirm_page;
use crate::draft::{Draft, DraftFault, first_named, is_free, read_draft, task_of};
use crate::fault::{
    Fault, Field, NO_FAULT, fault_of_address, fault_of_age, fault_of_circle, fault_of_draft,
    fault_of_key, fault_of_name,
};
use crate::origin::{Sender, is_same_origin};
use crate::pages::{
    FieldTexts, FilledForm, FormOf, create_page, faulty_page, refused_page, values_page,
};
use crate::token::TokenKey;
use hdl_languages::Language;
use hdl_msg::ResponseCode;
use hdl_name::Name;
use hdl_proxy::{
    Answer, AnswerFormat, CacheControl, Found, NoAnswer, Pair, Question, Status, finish, has_pair,
    read_answer, read_name, read_pairs, unescape,
};
use std::alloc::{AllocError, Global};

/// Where JSON is answered, and no form is.
const API_PATH: &str = "/api/";

/// What a form is for.
#[derive(Drop)]
pub enum FormPlace {
    /// The values of this handle.
    Edit(Name),
    /// A new handle.
    New,
}

impl FormPlace {
    /// What its tokens are for: the handle, and nothing where it is new.
    pub fn subject(&self) -> &[u8]
        ensures { result.now ≡ subject_of self.now }
    {
        match self {
            FormPlace::Edit(name) => name.sent(),
            FormPlace::New => b"",
        }
    }

    /// Where it is opened again, from its own address.
    pub fn address(&self) -> &'static str {
        match self {
            FormPlace::Edit(_) => "?edit",
            FormPlace::New => "/?new",
        }
    }
}

/// The name of a handle whose form this path would be, if it is one.
fn handle_at(alloc: Global, path: &str) -> Result<Option<Name>, AllocError> {
    let Some(sent) = path.strip_prefix('/') else {
        return Ok(None);
    };
    let octets = unescape(alloc, sent)?;
    match read_name(alloc, &octets)? {
        Ok(name) => Ok(Some(name)),
        Err(_) => Ok(None),
    }
}

/// The form at an address: `/HANDLE?edit`, or `/?new`. None where it is another one.
pub fn form_at(alloc: Global, path: &str, query: &str) -> Result<Option<FormPlace>, AllocError> {
    if query.is_empty() || path.starts_with(API_PATH) {
        return Ok(None);
    }
    let pairs = read_pairs(alloc, query)?;
    if path == "/" {
        return Ok(if has_pair(&pairs, "new") {
            Some(FormPlace::New)
        } else {
            None
        });
    }
    if !has_pair(&pairs, "edit") {
        return Ok(None);
    }
    match handle_at(alloc, path)? {
        Some(name) => Ok(Some(FormPlace::Edit(name))),
        None => Ok(None),
    }
}

/// The question for the values that a form shows: all that are public, whatever is kept.
pub fn form_question(alloc: Global, name: Name) -> Question {
    Question {
        name,
        form: AnswerFormat::Page(Language::English),
        indexes: Vec::new(alloc),
        types: Vec::new(alloc),
        append: Vec::new(alloc),
        locatt: String::new(alloc),
        aliases: false,
        passed: Vec::new(alloc),
        tried: Vec::new(alloc),
        cache_control: CacheControl::Never,
        anew: true,
    }
}

/// The page with the forms of the handle's values, now that a server gave this.
pub fn edit_page(
    alloc: Global,
    question: &Question,
    answered: Result<&[u8], NoAnswer>,
    token: &[u8],
) -> Result<Answer, AllocError> {
    match read_answer(alloc, question.name.sent(), answered)? {
        Found::Values(values) => values_page(alloc, question.name.sent(), &values, token),
        Found::Refused(code) if code == ResponseCode::ValueNotFound.number() => {
            values_page(alloc, question.name.sent(), &[], token)
        }
        _ => finish(alloc, question, answered, 0),
    }
}

/// The page with the form of a new handle.
pub fn new_page(alloc: Global, token: &[u8]) -> Result<Answer, AllocError>
    ensures { IfOk result (IsFormPage Success) }
{
    create_page(alloc, Status::Success, b"", b"", token, NO_FAULT)
}

/// A form as it came: when, in seconds, to which host, with what follows that up to its handles, and its body.
#[derive(Clone, Copy)]
pub struct SentForm<'a> {
    pub now: u32,
    pub host: &'a [u8],
    pub body: &'a [u8],
}

/// What is next for a form.
#[derive(Drop)]
pub enum FormStep {
    /// A page is answered.
    Page(Answer),
    /// An order is carried out, and then [`result_page`] is answered.
    Order(FormOrder, FilledForm),
}

pub(crate) fn text_at<'a>(pairs: &'a [Pair], name: &str) -> &'a str
    ensures { result.now ≡ text_in name.now (texts_of pairs.now) }
{
    first_named(pairs, name).unwrap_or("")
}

/// The texts of a value's form.
fn texts_in(pairs: &[Pair]) -> FieldTexts<'_> {
    FieldTexts {
        index: text_at(pairs, "index").as_bytes(),
        kind: text_at(pairs, "type").as_bytes(),
        ttl: text_at(pairs, "ttl").as_bytes(),
        permissions: text_at(pairs, "permissions").as_bytes(),
        old: text_at(pairs, "old").as_bytes(),
        text: text_at(pairs, "text").as_bytes(),
    }
}

/// The form as it was filled in, with what is wrong with it.
fn form_again(
    alloc: Global,
    status: Status,
    place: &FormPlace,
    pairs: &[Pair],
    token: &[u8],
    fault: Fault<'static>,
) -> Result<Answer, AllocError>
    ensures { IfOk result (IsFormPage status) }
{
    match place {
        FormPlace::New => {
            let name = text_at(pairs, "handle").as_bytes();
            let text = text_at(pairs, "text").as_bytes();
            create_page(alloc, status, name, text, token, fault)
        }
        FormPlace::Edit(name) => {
            let about = FormOf {
                name: name.sent(),
                token,
                is_new: text_at(pairs, "task") == "add",
            };
            faulty_page(alloc, status, about, texts_in(pairs), fault)
        }
    }
}

/// Whether a form has this field to be typed in.
fn has_field(place: &FormPlace, pairs: &[Pair], field: Field) -> bool {
    match place {
        FormPlace::New => matches!(field, Field::Handle | Field::Text),
        FormPlace::Edit(_) if text_at(pairs, "task") == "add" => {
            matches!(field, Field::Type | Field::Index | Field::Text)
        }
        FormPlace::Edit(_) => field == Field::Text,
    }
}

/// The page of a form that has a fault in one of its fields.
fn fault_page(
    alloc: Global,
    place: &FormPlace,
    pairs: &[Pair],
    token: &[u8],
    fault: Fault<'static>,
) -> Result<Answer, AllocError>
    ensures { IfOk result (IsFormPage BadRequest) }
{
    if !has_field(place, pairs, fault.field) {
        return refused_page(
            alloc,
            Status::BadRequest,
            "This form isn't whole",
            "Nothing was done.",
            place.address(),
        );
    }
    form_again(alloc, Status::BadRequest, place, pairs, token, fault)
}

/// The handle that a text names, which isn't one as readers paste it.
fn new_name(alloc: Global, text: &str) -> Result<Result<Name, Fault<'static>>, AllocError>
    ensures named { IfOk result (λ read. IfOk read (λ name. name ≡ text.now)) }
    ensures plain { IfOk result (λ read. IfOk read (λ _. ¬ (IsAddress text.now))) }
{
    let octets = text.as_bytes();
    if is_address(octets) {
        return Ok(Err(fault_of_address()));
    }
    match read_name(alloc, octets)? {
        Ok(name) => Ok(Ok(name)),
        Err(fault) => Ok(Err(fault_of_name(fault))),
    }
}

/// The handle that a form is about: its own, or the one that is named in it.
fn name_in(
    alloc: Global,
    place: &FormPlace,
    pairs: &[Pair],
) -> Result<Result<Name, Fault<'static>>, AllocError>
    ensures { IfOk result (λ read. IfOk read (IsNamed place.now (texts_of pairs.now))) }
{
    let octets = match place {
        FormPlace::Edit(name) => name.sent(),
        FormPlace::New => return new_name(alloc, text_at(pairs, "handle").trim()),
    };
    match read_name(alloc, octets)? {
        Ok(name) => Ok(Ok(name)),
        Err(fault) => Ok(Err(fault_of_name(fault))),
    }
}

/// What is next for a form about this handle that says this change.
fn take_filled(
    alloc: Global,
    name: Name,
    form: FilledForm,
    pairs: &[Pair],
) -> Result<FormStep, AllocError>
    requires said { draft_in (texts_of pairs.now) ≡ Ok form.draft }
    requires named { form.name.items ≡ name }
    ensures step { IfOk result (IsStep (IsWarned name (texts_of pairs.now)) (IsOrderOf name (texts_of pairs.now))) }
    ensures same { IfOk result (IsStep (λ _. ⊤) (λ made taken. (made.order.name ≡ name) × (taken.draft ≡ form.draft))) }
{
    let Some(key) = first_named(pairs, "key") else {
        return Ok(FormStep::Page(confirm_page(alloc, Status::Success, &form, NO_FAULT)?));
    };
    let secret = text_at(pairs, "secret");
    match order_of(alloc, name, &form.draft, TypedKey { key, secret }) {
        Ok(order) => Ok(FormStep::Order(order, form)),
        Err(fault) => match fault_of_key(fault) {
            Some(fault) => Ok(FormStep::Page(confirm_page(
                alloc,
                Status::BadRequest,
                &form,
                fault,
            )?)),
            None => Err(AllocError),
        },
    }
}

/// Whether a change makes this handle lead to itself at this host.
fn is_circular(alloc: Global, host: &[u8], name: &Name, draft: &Draft) -> Result<bool, AllocError>
    ensures { IfOk result (λ circular. IsTrue circular ↔ IsCircular host.now name.now draft.now) }
{
    if is_free(draft) {
        return Ok(false);
    }
    leads_back(alloc, host, name, draft.text.as_slice())
}

/// What is next for the fields of a form whose token was accepted.
fn take_fields(
    alloc: Global,
    host: &[u8],
    place: &FormPlace,
    pairs: &[Pair],
    token: Vec<u8>,
) -> Result<FormStep, AllocError>
    ensures step { IfOk result (IsStep (IsWarned (about place.now (texts_of pairs.now)) (texts_of pairs.now)) (IsOrderOf (about place.now (texts_of pairs.now)) (texts_of pairs.now))) }
    ensures plain { IfOk result (IsStep (λ _. ⊤) (λ made _. IsPlain place.now made.order.name)) }
    ensures straight { IfOk result (IsStep (λ _. ⊤) (λ made form. ¬ (IsCircular host.now made.order.name form.draft))) }
{
    let name = match name_in(alloc, place, pairs)? {
        Ok(name) => name,
        Err(fault) => return Ok(FormStep::Page(fault_page(alloc, place, pairs, &token, fault)?)),
    };
    match read_draft(alloc, pairs) {
        Ok(draft) => {
            if is_circular(alloc, host, &name, &draft)? {
                let fault = fault_of_circle();
                return Ok(FormStep::Page(fault_page(alloc, place, pairs, &token, fault)?));
            }
            let form = FilledForm {
                name: Vec::from_slice(alloc, name.sent())?,
                draft,
                token,
            };
            take_filled(alloc, name, form, pairs)
        }
        Err(fault) => match fault_of_draft(fault) {
            Some(fault) => Ok(FormStep::Page(fault_page(alloc, place, pairs, &token, fault)?)),
            None => Err(AllocError),
        },
    }
}

/// The page that refuses a form of another site's page; it leads to the form at this address. None where it comes from this site.
pub fn refuse_cross_origin(
    alloc: Global,
    address: &'static str,
    sender: Sender<'_>,
) -> Result<Option<Answer>, AllocError>
    ensures own { is_same_origin (option_copied sender.entry.site) (option_copied sender.entry.origin) (option_copied sender.entry.host) ≡ true → IfOk result (λ page. page ≡ None) }
    ensures foreign { is_same_origin (option_copied sender.entry.site) (option_copied sender.entry.origin) (option_copied sender.entry.host) ≡ false → IfOk result (λ page. IsSomeAnd page (IsFormPage Forbidden)) }
{
    if is_same_origin(sender) {
        return Ok(None);
    }
    let why = "This form came from another site";
    let advice =
        "Nothing was done. A form is taken only from a browser that says that its page was one of this site.";
    Ok(Some(refused_page(alloc, Status::Forbidden, why, advice, address)?))
}

/// The page that refuses a form that didn't come whole.
pub fn refuse_unread(
    alloc: Global,
    address: &'static str,
    status: Status,
) -> Result<Answer, AllocError>
    ensures { IfOk result (IsFormPage status) }
{
    let why = "This form didn't arrive whole";
    let advice =
        "Nothing was done. It may have at most 1048576 bytes, and must arrive within 10 seconds.";
    refused_page(alloc, status, why, advice, address)
}

/// The change that a form says, if it says one.
fn filled_in(
    alloc: Global,
    place: &FormPlace,
    pairs: &[Pair],
    token: &[u8],
) -> Result<Option<FilledForm>, AllocError> {
    let Ok(name) = name_in(alloc, place, pairs)? else {
        return Ok(None);
    };
    match read_draft(alloc, pairs) {
        Ok(draft) => Ok(Some(FilledForm {
            name: name.into_sent(),
            draft,
            token: Vec::from_slice(alloc, token)?,
        })),
        Err(DraftFault::Memory) => Err(AllocError),
        Err(_) => Ok(None),
    }
}

/// The page of a form that is too old: the form again, filled in as it was, with a new token. Key and secret are typed anew.
fn outdated_page(
    alloc: Global,
    place: &FormPlace,
    pairs: &[Pair],
    token: &[u8],
) -> Result<Answer, AllocError>
    ensures { IfOk result (IsFormPage Forbidden) }
{
    let fault = fault_of_age();
    if task_of(pairs).is_none() {
        let why = "This form isn't whole";
        let advice = "Nothing was done.";
        return refused_page(alloc, Status::Forbidden, why, advice, place.address());
    }
    if first_named(pairs, "key").is_some() {
        if let Some(form) = filled_in(alloc, place, pairs, token)? {
            return confirm_page(alloc, Status::Forbidden, &form, fault);
        }
    }
    form_again(alloc, Status::Forbidden, place, pairs, token, fault)
}

/// The fields of a form's body. One that isn't text has none.
pub(crate) fn fields_of(alloc: Global, body: &[u8]) -> Result<Vec<Pair>, AllocError>
    ensures { IfOk result (λ pairs. texts_of pairs.items ≡ fields_of body.now) }
{
    let Ok(text) = str::from_utf8(body) else {
        return Ok(Vec::new(alloc));
    };
    read_pairs(alloc, text)
}

/// What is next for a form of this site: it is shown again, filled in as it was, where its token isn't one of this process for this, not older than an hour. Then its first fault is shown beside its field, also that a handle would lead to itself. A form without a key is shown again to be confirmed, with what may be wrong with it, and one with a key is an order.
pub fn take_form(
    alloc: Global,
    tokens: &TokenKey,
    place: &FormPlace,
    sent: SentForm<'_>,
) -> Result<FormStep, AllocError>
    ensures step { IfOk result (IsStep (IsWarned (about place.now (fields_of sent.entry.body.now)) (fields_of sent.entry.body.now)) (IsOrderOf (about place.now (fields_of sent.entry.body.now)) (fields_of sent.entry.body.now))) }
    ensures plain { IfOk result (IsStep (λ _. ⊤) (λ made _. IsPlain place.now made.order.name)) }
    ensures straight { IfOk result (IsStep (λ _. ⊤) (λ made form. ¬ (IsCircular sent.entry.host.now made.order.name form.draft))) }
    ensures guarded { IfOk result (IsStep (λ _. ⊤) (λ _ _. accepts tokens.now (subject_of place.now) sent.entry.now (text_in (codes "token") (fields_of sent.entry.body.now)) ≡ true)) }
{
    let pairs = fields_of(alloc, sent.body)?;
    let token = text_at(&pairs, "token").as_bytes();
    let next = tokens.token_of(alloc, place.subject(), sent.now)?;
    if !tokens.accepts(alloc, place.subject(), sent.now, token)? {
        return Ok(FormStep::Page(outdated_page(alloc, place, &pairs, &next)?));
    }
    take_fields(alloc, sent.host, place, &pairs, next)
}
