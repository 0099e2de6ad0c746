//! Administrators: the references that may change a handle, and the permissions of each.
//!
//! An HS_ADMIN value of a handle names a reference and a mask. The reference is an administrator. If there is an
//! HS_VLIST value at the reference, each reference in that list is one too, and so on through any number of lists.
//! `specs/Reach.antt` defines this by paths in the whole table. Index 0 refers to nothing. An administrator need not
//! exist.
//!
//! [`Search`] finds the union of the masks that lead to a reference, over any [`hdl_rows::Rows`]. It starts at all
//! HS_ADMIN values at once and goes from list to list. Each call looks up a limited number of octets. It passes masks
//! on: each reference has the union of the masks of those that lead to it. So it ends even if lists refer to each
//! other, and one look into its state gives the mask of any reference. It leaves the table as it was. [`mask`] runs a
//! search to its end and returns the mask of one reference, for callers that have nothing else to do meanwhile. Five
//! laws state that a reference has one mask, that index 0 has none, and when two tables have the same chains and masks.
//! A sixth states that the counts of each table are bounded.
//!
//! It depends on `hdl_name`, `hdl_value` and the contract of `hdl_rows`.
//!
//! ```rust
//! // crates/hdl_tests/src/reach.rt
//! let key = reference(alloc, key, index)?;
//! let found = mask(alloc, rows, &name, &key)?;
//! same(rt, what, (key.index, found), (index, want));
//! ```
//!
//! # Decisions
//!
//! - **A mask is a relation**: the union over all HS_ADMIN values from which lists lead to the reference, defined by
//!   paths in the whole table. If a mask of 0 leads to it, the result is `Some 0`: an administrator without
//!   permissions.
//! - **One search serves all HS_ADMIN values and all keys. It keeps a mask for each reference** and no contents of
//!   lists. So a thousand lists of the same references take the memory of these. But a list counts each time that it is
//!   looked up. The price is that a list is looked up again if a mask with new bits leads to it: never if all HS_ADMIN
//!   values have the same mask, and at most as often as they have different ones. Also, the search doesn't end early:
//!   it looks up all that the lists of a handle reach, even if the first HS_ADMIN value names the reference directly.
//! - **A search begins with the heads of the handle's values**, and then reads those of type HS_ADMIN, each by a call of
//!   its own. So other values cost no more than their heads, however large they are.
//! - **What is known is the least solution of grants and lists** (`IsFound`): it is within every assignment of masks
//!   that contains the grants and that each known reference passes on to the references in its list. At the end it is
//!   such an assignment itself, and so are the masks by definition.
//! - **The last reference found is looked up first.** If HS_ADMIN values share lists, either order may look some up
//!   again.
//! - **A search depends only on what it looked up** (`is_apart_from`): it holds for every table with the same values
//!   there and at the handle. The references to one handle are adjacent in the order of keys, so one look tells whether
//!   there is any.
//! - **The progress of a call is stated** (`IsFurther`): masks only gain bits, and if none did, fewer references are
//!   left to look up. Both are finite, so repeated calls come to an end. The number of looks that are left at most is a
//!   function of the table and of what is known (`looks_left`). Each call but the last lowers it: a place is looked up
//!   again only if its mask rose, and a mask has only the bits of all HS_ADMIN values.
#![tactic(auto)]

mod administrators;
mod found;
mod grants;
mod keys;
mod laws;
mod lists;
mod search;

pub use administrators::mask;
pub use laws::{administrators_among, have_most, none_at_zero, one_mask, same_chains, same_masks};
pub use search::Search;
