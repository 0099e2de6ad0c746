//! The handles that a copy of a table has, by their prefixes, and lists of them, page by page.
//!
//! ```text
//! read_copy: the file of a copy -> CopiedHandles -> of: the handles of a prefix, by rising octets
//!                                                -> listed: the same, each with the URL to which it leads for anybody
//! what is looked for, a place -> list_page: the next 500 of these
//! ```
//!
//! A copy is read once, and of its values only URLs and HS_GONE are: no secret comes along. What its file holds is SQL's (`sqlite`), and that the handles are
//! all of it is said in no clause. It promises that it is safe; that of the handles that were read just those of the prefix are given; that a handle's URL is
//! the first that anybody may read, and that one is gone if anybody may read so; and that the pages of a list, one after the other, have each handle that is looked for, once, and no others.
//!
//! ```rust
//! // crates/hdl_web/src/main.rt
//! match read_copy(rt, path.as_str()) {
//!     Ok(copied) => Ok(Some(copied)),
//! ```
#![tactic(auto)]

mod fault;
mod handles;
mod list;
mod listed;
mod reading;
mod search;

pub use fault::CopyFault;
pub use handles::CopiedHandles;
pub use list::{LOOKED_MOST, ListPage, PAGE_MOST, list_page};
pub use listed::ListedHandle;
pub use reading::read_copy;
pub use search::{Search, words_of};
