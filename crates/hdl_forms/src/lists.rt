//! The list of a prefix's handles: its form, the order by which a server is asked whether this key may list them, and its page.

ghost use Rattle.std.specs.Prelude.{◌≡◌, ◌++◌, ◌↔◌, true, IfOk, IfSome, IsTrue, codes};
ghost use Rattle.hdl_proxy.specs.Query.{pairs_of, texts_of};
ghost use Rattle.hdl_proxy.specs.declared.answer.Status.{Status};
ghost use Rattle.hdl_proxy.specs.declared.answer.Status.TheVariants.{Success};
ghost use Rattle.hdl_rest.specs.Since.{AskedSince};
ghost use Rattle.hdl_forms.specs.Lists.{AreFew, CarriesList, HasForm, IsForm, IsListOf, IsListOrder, IsListStep, IsRequest, IsWholeForm, Seeks, Shows, buttons, list_top, place_in, with_prefix, with_words};
ghost use Rattle.hdl_forms.specs.Pages.{IsFormPage};
ghost use Rattle.hdl_forms.specs.Taken.{fields_of, page_status, text_in};
ghost use Rattle.hdl_forms.specs.Token.{accepts};

use crate::change::{TypedKey, key_of};
use crate::confirm::with_keys;
use crate::fault::{
    Fault, Field, NO_FAULT, fault_of_age, fault_of_key, fault_of_prefix, fault_of_words,
};
use crate::forms::{SentForm, fields_of, text_at};
use crate::found::found_part;
use crate::markup::{Template, prefix_template};
use crate::pages::answer_of;
use crate::results::{fault_told, page_status, told_in};
use crate::template::{FormPage, Texts};
use crate::token::TokenKey;
use hdl_copied_handles::{ListPage, ListedHandle, Search, list_page, words_of};
use hdl_limits::Octets;
use hdl_name::Name;
use hdl_proxy::{Answer, Pair, Status, has_pair, read_name, read_pairs};
use hdl_rest::{ChangeAction, ChangeServer, Order, PageRange, may_list};
use hdl_value_lines::number_in;
use std::alloc::{AllocError, Global};

/// Where the form of a list is.
pub const LIST_ADDRESS: &str = "/?list";

/// What its tokens are for. No handle is called so.
const SUBJECT: &[u8] = b"?list";

/// The most octets of the words that are looked for in handles, and of those in URLs: a search holds up the changes behind it.
const WORDS_MOST: usize = 256;

/// What a page of a list is called.
const TITLE: &str = "A list of handles";

/// A request for a page of a list: the prefix, words in the handle and in the URL to which it leads, the place from which on handles are looked at, and the token of the form that comes next. The key and its secret aren't in it.
#[derive(Drop)]
pub struct ListRequest {
    pub prefix: Octets,
    pub name: Octets,
    pub url: Octets,
    pub from: u32,
    pub token: Octets,
}

/// What is next for a request of a list.
#[derive(Drop)]
pub enum ListStep {
    /// A page is answered.
    Page(Answer),
    /// A server is asked by this order, and then [`carry_list`] makes the page.
    Order(Order, ListRequest),
}

/// The place that a text says, and else the first one.
fn place_in(text: &str) -> u32
    ensures { result ≡ place_in text.now }
{
    number_in(text.as_bytes()).unwrap_or(0)
}

fn octets(alloc: Global, text: &str) -> Result<Octets, AllocError>
    ensures { IfOk result (λ octets. octets ≡ text.now) }
{
    Ok(Octets::new(Vec::from_slice(alloc, text.as_bytes())?))
}

/// The request that the fields of a form say, with a token of this moment.
fn request_in(
    alloc: Global,
    tokens: &TokenKey,
    now: u32,
    pairs: &[Pair],
) -> Result<ListRequest, AllocError>
    ensures { IfOk result (IsRequest (texts_of pairs.now)) }
{
    Ok(ListRequest {
        prefix: octets(alloc, text_at(pairs, "list"))?,
        name: octets(alloc, text_at(pairs, "q"))?,
        url: octets(alloc, text_at(pairs, "to"))?,
        from: place_in(text_at(pairs, "from")),
        token: Octets::new(tokens.token_of(alloc, SUBJECT, now)?),
    })
}

/// The request at an address, `/?list`, at this moment in seconds. None where it is another one.
pub fn list_at(
    alloc: Global,
    tokens: &TokenKey,
    now: u32,
    path: &str,
    query: &str,
) -> Result<Option<ListRequest>, AllocError>
    ensures { IfOk result (λ request. IfSome request (IsRequest (pairs_of query.now))) }
{
    if path != "/" || query.is_empty() {
        return Ok(None);
    }
    let pairs = read_pairs(alloc, query)?;
    if !has_pair(&pairs, "list") {
        return Ok(None);
    }
    Ok(Some(request_in(alloc, tokens, now, &pairs)?))
}

/// The form of a request up to its prefix, with what is wrong with it.
fn with_prefix(
    alloc: Global,
    request: &ListRequest,
    fault: Fault<'_>,
) -> Result<FormPage, AllocError>
    ensures { IfOk result (λ page. (top at_prefix : _) × (page ≡ with_prefix request.now top at_prefix)) }
{
    let top = fault.at(Field::Top);
    let at_prefix = fault.at(Field::Handle);
    let texts = Texts::new(alloc).and(request.token.as_slice())?;
    let texts = texts.and(top)?;
    let page = FormPage::new(alloc).with(Template::ListForm, texts)?;
    let texts = Texts::new(alloc).and(request.prefix.as_slice())?;
    let texts = texts.and(at_prefix)?;
    page.with(prefix_template(at_prefix), texts)
}

/// The page with the fields of a request's words.
fn with_words(alloc: Global, page: FormPage, request: &ListRequest) -> Result<FormPage, AllocError>
    ensures { IfOk result (λ after. after ≡ with_words page request.now) }
{
    let texts = Texts::new(alloc).and(request.name.as_slice())?;
    let texts = texts.and(request.url.as_slice())?;
    page.with(Template::Words, texts)
}

/// The form of a request, up to its buttons, with what is wrong with it.
fn form_of(alloc: Global, request: &ListRequest, fault: Fault<'_>) -> Result<FormPage, AllocError>
    ensures { IfOk result (λ page. IsForm request.now page) }
{
    let page = with_prefix(alloc, request, fault)?;
    let page = with_words(alloc, page, request)?;
    with_keys(alloc, page, fault)
}

/// The page with the buttons of its form, by one of which the next page is asked for, if there is one.
fn with_buttons(alloc: Global, page: FormPage, next: Option<usize>) -> Result<FormPage, AllocError>
    ensures { IfOk result (λ after. after ≡ page ++ buttons next) }
{
    let Some(next) = next else {
        return page.with(Template::Find, Texts::new(alloc));
    };
    let place = format!(in alloc; "{next}")?;
    let texts = Texts::new(alloc).and(place.as_bytes())?;
    page.with(Template::FindOrNext, texts)
}

/// What all pages of lists begin with.
fn list_top(alloc: Global) -> Result<FormPage, AllocError>
    ensures { IfOk result (λ page. page ≡ list_top) }
{
    FormPage::new(alloc).with(Template::List, Texts::new(alloc))
}

/// The whole form of a request, with what is wrong with it.
fn whole_form(
    alloc: Global,
    request: &ListRequest,
    fault: Fault<'_>,
    next: Option<usize>,
) -> Result<FormPage, AllocError>
    ensures { IfOk result (λ page. IsWholeForm request.now next page) }
{
    let form = form_of(alloc, request, fault)?;
    with_buttons(alloc, form, next)
}

/// The page with the form alone, and what is wrong with it.
fn form_page(
    alloc: Global,
    status: Status,
    request: &ListRequest,
    fault: Fault<'_>,
) -> Result<Answer, AllocError>
    ensures page { IfOk result (IsFormPage status) }
    ensures form { IfOk result (HasForm request.now) }
{
    let form = whole_form(alloc, request, fault, None)?;
    let page = list_top(alloc)?.join(form)?;
    answer_of(alloc, status, lead_of(fault), TITLE.as_bytes(), page)
}

/// What the title of a page with this fault begins with.
fn lead_of(fault: Fault<'_>) -> &'static str {
    if fault.words.is_empty() {
        ""
    } else {
        "Not done: "
    }
}

/// The page with the form of a list, as a request fills it in.
pub fn list_form(alloc: Global, request: &ListRequest) -> Result<Answer, AllocError>
    ensures page { IfOk result (IsFormPage Success) }
    ensures form { IfOk result (HasForm request.now) }
{
    form_page(alloc, Status::Success, request, NO_FAULT)
}

/// The administrative handle of a prefix, or what is wrong with the prefix.
fn admin_handle(alloc: Global, prefix: &str) -> Result<Result<Name, Fault<'static>>, AllocError>
    ensures { IfOk result (λ read. IfOk read (λ name. name ≡ codes "0.NA/" ++ prefix.now)) }
{
    let mut handle = Vec::from_slice(alloc, b"0.NA/")?;
    handle.extend_from_slice(prefix.as_bytes())?;
    match read_name(alloc, &handle)? {
        Ok(name) => Ok(Ok(name)),
        Err(_) => Ok(Err(fault_of_prefix())),
    }
}

/// The order by which a server is asked for the handles of a prefix with the key that is typed in these fields. What is wrong with them is shown.
fn order_in(
    alloc: Global,
    pairs: &[Pair],
    name: Name,
    request: ListRequest,
) -> Result<ListStep, AllocError>
    requires named { name ≡ codes "0.NA/" ++ text_in (codes "list") (texts_of pairs.now) }
    requires said { IsRequest (texts_of pairs.now) request }
    requires few { AreFew request }
    ensures { IfOk result (IsListStep (IsListOrder (texts_of pairs.now))) }
{
    let key = text_at(pairs, "key");
    let secret = text_at(pairs, "secret");
    let act = ChangeAction::List {
        window: Some(PageRange { page: 0, size: 0 }),
    };
    match key_of(alloc, TypedKey { key, secret }) {
        Ok(key) => Ok(ListStep::Order(Order { name, key, act }, request)),
        Err(fault) => match fault_of_key(fault) {
            Some(fault) => {
                let page = form_page(alloc, Status::BadRequest, &request, fault)?;
                Ok(ListStep::Page(page))
            }
            None => Err(AllocError),
        },
    }
}

/// Whether not too many words are looked for.
fn are_few(request: &ListRequest) -> bool
    ensures { IsTrue result ↔ AreFew request.now }
{
    request.name.as_slice().len() <= WORDS_MOST && request.url.as_slice().len() <= WORDS_MOST
}

/// What is next for these fields of a form whose token was accepted.
fn take_fields(alloc: Global, pairs: &[Pair], request: ListRequest) -> Result<ListStep, AllocError>
    requires { IsRequest (texts_of pairs.now) request }
    ensures { IfOk result (IsListStep (IsListOrder (texts_of pairs.now))) }
{
    let fault = match admin_handle(alloc, text_at(pairs, "list"))? {
        Ok(name) if are_few(&request) => return order_in(alloc, pairs, name, request),
        Ok(_) => fault_of_words(),
        Err(fault) => fault,
    };
    let page = form_page(alloc, Status::BadRequest, &request, fault)?;
    Ok(ListStep::Page(page))
}

/// What is next for the form of a list of this site: it is shown again, filled in as it was, where its token isn't one of this process for lists, not older than an hour. Then its first fault is shown beside its field.
pub fn take_list(
    alloc: Global,
    tokens: &TokenKey,
    sent: SentForm<'_>,
) -> Result<ListStep, AllocError>
    ensures step { IfOk result (IsListStep (IsListOrder (fields_of sent.entry.body.now))) }
    ensures guarded { IfOk result (IsListStep (λ _ _. accepts tokens.now (codes "?list") sent.entry.now (text_in (codes "token") (fields_of sent.entry.body.now)) ≡ true)) }
{
    let pairs = fields_of(alloc, sent.body)?;
    let token = text_at(&pairs, "token").as_bytes();
    let request = request_in(alloc, tokens, sent.now, &pairs)?;
    if !tokens.accepts(alloc, SUBJECT, sent.now, token)? {
        let page = form_page(alloc, Status::Forbidden, &request, fault_of_age())?;
        return Ok(ListStep::Page(page));
    }
    take_fields(alloc, &pairs, request)
}

/// What a request looks for.
fn search_of(alloc: Global, request: &ListRequest) -> Result<Search, AllocError>
    ensures { IfOk result (Seeks request.now) }
{
    Ok(Search {
        name: words_of(alloc, request.name.as_slice())?,
        url: words_of(alloc, request.url.as_slice())?,
    })
}

/// The page that shows this part of a list.
fn shown(
    alloc: Global,
    request: &ListRequest,
    handles: &[ListedHandle],
    part: &ListPage,
) -> Result<Answer, AllocError>
    ensures page { IfOk result (IsFormPage Success) }
    ensures body { IfOk result (Shows request.now handles.now part.now) }
{
    let found = found_part(alloc, request, handles, part)?;
    let form = whole_form(alloc, request, NO_FAULT, part.next)?;
    let page = list_top(alloc)?.join(found)?.join(form)?;
    answer_of(
        alloc,
        Status::Success,
        "Handles of the prefix ",
        request.prefix.as_slice(),
        page,
    )
}

/// The page of a list of these handles.
fn list_of(
    alloc: Global,
    request: &ListRequest,
    handles: &[ListedHandle],
) -> Result<Answer, AllocError>
    ensures page { IfOk result (IsFormPage Success) }
    ensures list { IfOk result (IsListOf request.now handles.now) }
{
    let search = search_of(alloc, request)?;
    let part = list_page(alloc, handles, &search, request.from as usize)?;
    shown(alloc, request, handles, &part)
}

/// The form of a list again, and what an answer says why its order wasn't carried out.
pub fn refused_list(
    alloc: Global,
    request: &ListRequest,
    answer: &Answer,
) -> Result<Answer, AllocError>
    ensures page { IfOk result (IsFormPage (page_status answer.now.status)) }
    ensures form { IfOk result (HasForm request.now) }
{
    let told = told_in(alloc, answer)?;
    let fault = fault_told(answer.status, told.as_ref());
    form_page(alloc, page_status(answer.status), request, fault)
}

/// Asks whether the order's key may list the handles of its prefix, which are these, and makes the page. It has none of them if the server doesn't give the list.
pub fn carry_list<S: ChangeServer>(
    alloc: Global,
    service: &mut S,
    order: &Order,
    request: &ListRequest,
    handles: &[ListedHandle],
) -> Result<Answer, AllocError>
    ensures asked { AskedSince S.ChangeServer service.old service.new (CarriesList order.now request.now handles.now result) }
    ensures page { IfOk result (λ page. (status : Status) × IsFormPage status page) }
{
    match may_list(alloc, service, order)? {
        Ok(()) => list_of(alloc, request, handles),
        Err(answer) => refused_list(alloc, request, &answer),
    }
}
