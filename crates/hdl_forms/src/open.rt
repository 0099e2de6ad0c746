//! The page from which the form of an existing handle is opened.

ghost use Rattle.std.specs.Prelude.{◌≡◌, IfOk, option_map, string_bytes};
ghost use Rattle.hdl_proxy.specs.Pasted.{between_spaces};
ghost use Rattle.hdl_proxy.specs.Query.{pairs_of};
ghost use Rattle.hdl_proxy.specs.declared.answer.Status.{Status};
ghost use Rattle.hdl_forms.specs.Open.{IsOpened, IsOpenPage, IsTypedAt, IsTypedName, open_form};

use crate::address::{decoded, path_at};
use crate::fault::words_of_name;
use crate::markup::Template;
use crate::pages::{TypedField, answer_of, with_field};
use crate::template::{FormPage, Texts};
use hdl_proxy::{Answer, Status, last_named, lead_to_form, pasted_name, read_name, read_pairs};
use std::alloc::{AllocError, Global};

/// What the page is called.
const TITLE: &str = "Change a handle";

/// What is typed at an address, `/?edit` or `/?edit=TEXT`; empty where it has no text. None where it is another address.
pub fn open_at(alloc: Global, path: &str, query: &str) -> Result<Option<String>, AllocError>
    ensures typed { IfOk result (λ typed. IsTypedAt path.now (pairs_of query.now) (option_map string_bytes typed)) }
{
    if path != "/" {
        return Ok(None);
    }
    let pairs = read_pairs(alloc, query)?;
    match last_named(alloc, &pairs, "edit")? {
        Some(typed) => Ok(Some(String::from_str(alloc, typed)?)),
        None => Ok(None),
    }
}

/// The page with its field, in which this stands, and what is wrong with it.
fn open_form(alloc: Global, typed: &str, fault: &str) -> Result<FormPage, AllocError>
    ensures { IfOk result (λ page. page ≡ open_form typed.now fault.now) }
{
    let page = FormPage::new(alloc).with(Template::Open, Texts::new(alloc))?;
    let field = TypedField {
        id: b"edit",
        label: b"The handle, as you found it",
        note: b"",
        name: b"edit",
        value: typed.as_bytes(),
        placeholder: b"10/a",
        keys: b"text",
    };
    let page = with_field(alloc, page, field, fault.as_bytes())?;
    page.with(Template::OpenButton, Texts::new(alloc))
}

fn open_answer(
    alloc: Global,
    status: Status,
    lead: &'static str,
    typed: &str,
    fault: &str,
) -> Result<Answer, AllocError>
    ensures { IfOk result (IsOpenPage status typed.now fault.now) }
{
    let page = open_form(alloc, typed, fault)?;
    answer_of(alloc, status, lead, TITLE.as_bytes(), page)
}

/// The text between the spaces at its ends. Octets that are no text stay as they are.
fn between_spaces(octets: &[u8]) -> &[u8]
    ensures { result.now ≡ between_spaces octets.now }
{
    match str::from_utf8(octets) {
        Ok(text) => text.trim().as_bytes(),
        Err(_) => octets,
    }
}

/// The name in what was typed at the site of this host: of an address there in its path, and else as readers paste it.
fn typed_name(alloc: Global, host: &[u8], typed: &str) -> Result<Vec<u8>, AllocError>
    ensures { IfOk result (λ name. IsTypedName host.now typed.now name.items) }
{
    let Some(path) = path_at(host, typed.trim().as_bytes()) else {
        return pasted_name(alloc, None, typed);
    };
    let octets = decoded(alloc, path)?;
    Vec::from_slice(alloc, between_spaces(&octets))
}

/// The answer to what was typed at the site of this host: the way to the form of that handle. If nothing was typed, it is the page with an empty field; if it is no handle, the page says why.
pub fn open_page(alloc: Global, host: &[u8], typed: &str) -> Result<Answer, AllocError>
    ensures opened { IfOk result (IsOpened host.now typed.now) }
{
    if typed.trim().is_empty() {
        return open_answer(alloc, Status::Success, "", "", "");
    }
    let name = typed_name(alloc, host, typed)?;
    match read_name(alloc, &name)? {
        Ok(name) => lead_to_form(alloc, &name),
        Err(fault) => {
            let why = words_of_name(fault);
            open_answer(alloc, Status::BadRequest, "Not done: ", typed, why)
        }
    }
}
