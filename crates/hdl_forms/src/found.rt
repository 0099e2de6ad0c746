//! The part of a list that a page shows.

ghost use Rattle.std.specs.Prelude.{◌≡◌, ◌++◌, IfOk, flat_map};
ghost use Rattle.hdl_forms.specs.Lists.{foot_template, found_part, found_top, is_gone_at, name_at, or_any, row_at, row_template, url_at, with_found, with_list};

use crate::lists::ListRequest;
use crate::markup::Template;
use crate::template::{FormPage, Texts};
use hdl_copied_handles::{ListPage, ListedHandle};
use hdl_proxy::path_of;
use std::alloc::{AllocError, Global};

/// The name of the handle at this place, and nothing behind the last.
fn name_at(handles: &[ListedHandle], place: usize) -> &[u8]
    ensures { result.now ≡ name_at handles.now place }
{
    match handles.get(place) {
        Some(handle) => handle.name.as_slice(),
        None => b"",
    }
}

/// The URL to which it leads.
fn url_at(handles: &[ListedHandle], place: usize) -> &[u8]
    ensures { result.now ≡ url_at handles.now place }
{
    match handles.get(place) {
        Some(handle) => handle.url.as_slice(),
        None => b"",
    }
}

/// Whether it is gone.
fn is_gone_at(handles: &[ListedHandle], place: usize) -> bool
    ensures { result ≡ is_gone_at handles.now place }
{
    match handles.get(place) {
        Some(handle) => handle.is_gone,
        None => false,
    }
}

/// The template of its row.
fn row_template(handles: &[ListedHandle], place: usize) -> Template
    ensures { result ≡ row_template handles.now place }
{
    if is_gone_at(handles, place) {
        Template::GoneRow
    } else {
        Template::Row
    }
}

/// The page with the row of the handle at this place.
fn with_row(
    alloc: Global,
    page: FormPage,
    handles: &[ListedHandle],
    place: usize,
) -> Result<FormPage, AllocError>
    ensures { IfOk result (λ after. after ≡ page ++ row_at handles.now place) }
{
    let name = name_at(handles, place);
    let path = path_of(alloc, name)?;
    let texts = Texts::new(alloc).and(path.as_bytes())?;
    let texts = texts.and(name)?.and(url_at(handles, place))?;
    page.with(row_template(handles, place), texts)
}

/// The page with the rows of the handles at these places.
fn with_rows(
    alloc: Global,
    page: FormPage,
    handles: &[ListedHandle],
    places: &[usize],
) -> Result<FormPage, AllocError>
    ensures { IfOk result (λ after. after ≡ page ++ flat_map (row_at handles.now) places.now) }
{
    let mut rows = page;
    for place in places {
        rows = with_row(alloc, rows, handles, *place)?;
    }
    Ok(rows)
}

/// The page with a list of the handles at these places.
fn with_list(
    alloc: Global,
    page: FormPage,
    handles: &[ListedHandle],
    places: &[usize],
) -> Result<FormPage, AllocError>
    ensures { IfOk result (λ after. after ≡ with_list page handles.now places.now) }
{
    let page = page.with(Template::Rows, Texts::new(alloc))?;
    let page = with_rows(alloc, page, handles, places)?;
    page.with(Template::RowsEnd, Texts::new(alloc))
}

/// The page with what was found.
fn with_found(
    alloc: Global,
    page: FormPage,
    handles: &[ListedHandle],
    places: &[usize],
) -> Result<FormPage, AllocError>
    ensures { IfOk result (λ after. after ≡ with_found page handles.now places.now) }
{
    if places.is_empty() {
        page.with(Template::Nothing, Texts::new(alloc))
    } else {
        with_list(alloc, page, handles, places)
    }
}

/// The template of what is said below a list, of which there is a next page or none.
fn foot_template(next: Option<usize>) -> Template
    ensures { result ≡ foot_template next }
{
    match next {
        Some(_) => Template::ListFootNext,
        None => Template::ListFoot,
    }
}

/// Words that are looked for, and what is said if there are none.
fn or_any(words: &[u8]) -> &[u8]
    ensures { result.now ≡ or_any words.now }
{
    if words.is_empty() { b"any" } else { words }
}

/// What was looked for, and how many handles were found.
fn found_top(alloc: Global, request: &ListRequest, count: usize) -> Result<FormPage, AllocError>
    ensures { IfOk result (λ part. part ≡ found_top request.now count) }
{
    let digits = format!(in alloc; "{count}")?;
    let texts = Texts::new(alloc).and(request.prefix.as_slice())?;
    let texts = texts.and(digits.as_bytes())?;
    let texts = texts.and(or_any(request.name.as_slice()))?;
    let texts = texts.and(or_any(request.url.as_slice()))?;
    FormPage::new(alloc).with(Template::Found, texts)
}

/// This part of a list, below what was looked for.
pub(crate) fn found_part(
    alloc: Global,
    request: &ListRequest,
    handles: &[ListedHandle],
    part: &ListPage,
) -> Result<FormPage, AllocError>
    ensures { IfOk result (λ page. page ≡ found_part request.now handles.now part.now) }
{
    let page = found_top(alloc, request, part.found.len())?;
    let page = with_found(alloc, page, handles, &part.found)?;
    page.with(foot_template(part.next), Texts::new(alloc))
}
