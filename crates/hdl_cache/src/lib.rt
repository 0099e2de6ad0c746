//! What is known of administrators: masks that were found in the present table, and searches that continue.
//!
//! [`MaskedRows`] wraps any table, with exactly its contract (`hdl_rows::Rows`), and caches masks and searches.
//! [`Masked::mask`] returns the permissions of a key as an administrator of a handle. It looks first into the masks of
//! at most 256 pairs of a handle and a key ([`Masks`]; the least recently used are dropped). Otherwise it searches the
//! table. One call looks up a limited number of octets, and the contents of lists count. If the search isn't done then,
//! the call is refused, the search is kept by its handle, and the next call continues it. A search that is done serves
//! for every key, including invented ones, by one look into its state. That state has each reference once, with its
//! mask, however many lists contain it.
//!
//! The type's invariant ties the cache to the table: all that is cached is true of the table (`AreTrue` of
//! `specs/Truth.antt`). Each write that was done drops what it may have changed. So a mask that is found is the mask by
//! definition. If nothing is cached, or memory is refused, no answer changes.
//!
//! ```rust
//! // crates/hdl_tests/src/masks.rt
//! let rows = table(&rt, rt.alloc(), LOOKS)?;
//! let mut rows = MaskedRows::new(rt.alloc(), rows)?;
//! let name = Name::read(rt.alloc(), b"10/c")?;
//! let last = key(rt.alloc(), LISTED)?;
//! let first = rows.mask(&name, &last);
//! ```
//!
//! # Decisions
//!
//! - **The cache is in no world.** Contracts see a `MaskedRows` as its table, so `Service::step`, `run` and `open` say
//!   nothing of the cache, and after Busy and Early it may differ. A write drops all masks, since it may change a list
//!   on which any mask depends. It also drops the searches that saw a reference to its handle. The others stay, or
//!   steady writes would keep a long search from ever ending.
//! - **A write that the table refuses drops nothing**: the table is as it was. If a thread makes the writes of a table,
//!   each write is tried at least twice, and the second try has to find the search and the mask of the first.
//! - **Callers that need masks take any [`Masked`] table**: over a type parameter the clauses speak of the table alone,
//!   and no function has to state that the cache stays true.
//! - **Limits.** An invented key displaces an older mask. The hasher of `lru` has a fixed seed; with at most 256 pairs,
//!   keys chosen to collide cost 256 comparisons.
//! - **`MaskedRows::new` takes the allocator and may be refused**: it takes the memory for 256 pairs. Then
//!   `Service::open` returns `Memory`. `find` and `keep` copy two names. A refused `find` counts as not cached, and a
//!   refused `keep` stores nothing.
#![tactic(auto)]

mod last;
mod mask_key;
mod masked;
mod masks;
mod searches;

pub use masked::{Masked, MaskedRows};
pub use masks::Masks;
