//! What may be wrong with a change, though it can be made.

ghost use Rattle.std.specs.Prelude.{◌≡◌, ◌++◌, IfOk};
ghost use Rattle.hdl_value.specs.Reading.{Reads};
ghost use Rattle.hdl_forms.specs.Warnings.{ends_in_mark, has_space, is_alike, is_local_empty, is_other_case, meant_type, name_warnings, type_warning, warning_if, warnings};

use crate::draft::{Draft, Task};
use crate::markup::Template;
use crate::template::{FormPage, Texts};
use hdl_value::{HS_ALIAS, HS_GONE, LOCATIONS, URL};
use hdl_value_lines::cut_at;
use std::alloc::{AllocError, Global};

/// The type of a mail address.
const EMAIL: &[u8] = b"EMAIL";

const LOCAL_EMPTY: &str = "Nothing follows the slash of this handle. Is that meant?";

const NAME_SPACE: &str = "This handle has a space in it. Is that meant?";

/// What readers leave out at the end of a handle, or add there: the end of a sentence, a bracket, a quote, or a folder's slash.
const MARKS: &[u8] = b".,;:!?)]}>\"'/";

const NAME_MARK: &str =
    "This handle ends in a mark such as a full stop, a bracket or a slash, which readers may leave out. Is that meant?";

/// Whether nothing follows the slash of a name.
fn is_local_empty(name: &[u8]) -> bool
    ensures { result ≡ is_local_empty name.now }
{
    match cut_at(name, b'/') {
        Some((_, local)) => local.is_empty(),
        None => false,
    }
}

fn has_space(name: &[u8]) -> bool
    ensures { result ≡ has_space name.now }
{
    name.contains(&b' ')
}

/// Whether a name ends in what readers leave out or add.
fn ends_in_mark(name: &[u8]) -> bool
    ensures { result ≡ ends_in_mark name.now }
{
    match name.last() {
        Some(last) => MARKS.contains(last),
        None => false,
    }
}

/// Whether two types differ at most in small and capital letters.
fn is_alike(kind: &[u8], known: &[u8]) -> bool
    ensures { result ≡ is_alike kind.now known.now }
{
    kind.eq_ignore_ascii_case(known)
}

/// Whether two types differ, and in small and capital letters alone.
fn is_other_case(kind: &[u8], known: &[u8]) -> bool
    ensures { result ≡ is_other_case kind.now known.now }
{
    kind != known && is_alike(kind, known)
}

/// The type by which the proxy acts that differs from this one in small and capital letters alone.
fn meant_type(kind: &[u8]) -> Option<&'static [u8]>
    ensures { Reads (λ t. t.now) result (meant_type kind.now) }
{
    if is_other_case(kind, URL) {
        Some(URL)
    } else if is_other_case(kind, EMAIL) {
        Some(EMAIL)
    } else if is_other_case(kind, HS_ALIAS) {
        Some(HS_ALIAS)
    } else if is_other_case(kind, HS_GONE) {
        Some(HS_GONE)
    } else if is_other_case(kind, LOCATIONS) {
        Some(LOCATIONS)
    } else {
        None
    }
}

/// A warning, if it applies.
fn with_warning(
    alloc: Global,
    page: FormPage,
    applies: bool,
    words: &'static str,
) -> Result<FormPage, AllocError>
    ensures { IfOk result (λ after. after ≡ page ++ warning_if applies words.now) }
{
    if !applies {
        return Ok(page);
    }
    page.with(Template::Warning, Texts::new(alloc).and(words.as_bytes())?)
}

/// What may be wrong with the name of a new handle.
fn name_warnings(alloc: Global, name: &[u8]) -> Result<FormPage, AllocError>
    ensures { IfOk result (λ part. part ≡ name_warnings name.now) }
{
    let part = FormPage::new(alloc);
    let part = with_warning(alloc, part, is_local_empty(name), LOCAL_EMPTY)?;
    let part = with_warning(alloc, part, has_space(name), NAME_SPACE)?;
    with_warning(alloc, part, ends_in_mark(name), NAME_MARK)
}

/// What may be wrong with the type of a new value.
fn type_warning(alloc: Global, kind: &[u8]) -> Result<FormPage, AllocError>
    ensures { IfOk result (λ part. part ≡ type_warning kind.now) }
{
    let part = FormPage::new(alloc);
    match meant_type(kind) {
        Some(meant) => part.with(Template::TypeWarning, Texts::new(alloc).and(meant)?),
        None => Ok(part),
    }
}

/// What may be wrong with a change of this handle: a new handle's name whose local name is empty, with a space in it, or that ends in a mark, or a new value's type that differs from one by which the proxy acts in small and capital letters alone.
pub(crate) fn warnings(alloc: Global, name: &[u8], draft: &Draft) -> Result<FormPage, AllocError>
    ensures { IfOk result (λ part. part ≡ warnings name.now draft.now) }
{
    match draft.task {
        Task::Create => name_warnings(alloc, name),
        Task::Add => type_warning(alloc, draft.kind.as_slice()),
        Task::Change | Task::Remove => Ok(FormPage::new(alloc)),
    }
}
