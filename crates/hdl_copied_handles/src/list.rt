//! A list, page by page.

ghost use Rattle.std.specs.Prelude.{IfOk};
ghost use Rattle.hdl_copied_handles.specs.List.{IsPage};

use crate::listed::ListedHandle;
use crate::search::{Search, is_found};
use std::alloc::{AllocError, Global};

/// The most handles on a page.
pub const PAGE_MOST: usize = 500;

/// The most handles that are looked at for a page.
pub const LOOKED_MOST: usize = 20_000;

/// A page of a list: the places of its handles, and from which place on more are to be looked at, if any are.
#[derive(Drop)]
pub struct ListPage {
    pub found: Vec<usize>,
    pub next: Option<usize>,
}

/// The next page of what is looked for, from this place on. It has 500 handles at most, and at most 20,000 are looked at for it; `next` is where the page
/// after it begins. So the pages in a row have each handle that is looked for, once, and no others.
pub fn list_page(
    alloc: Global,
    handles: &[ListedHandle],
    search: &Search,
    from: usize,
) -> Result<ListPage, AllocError>
    ensures page { IfOk result (IsPage search.now handles.now from) }
{
    let mut found = Vec::new(alloc);
    let mut place = from;
    for handle in handles.get(from..).unwrap_or(&[]) {
        if found.len() >= PAGE_MOST || place - from >= LOOKED_MOST {
            return Ok(ListPage {
                found,
                next: Some(place),
            });
        }
        if is_found(search, handle) {
            found.push(place)?;
        }
        place += 1;
    }
    Ok(ListPage { found, next: None })
}
