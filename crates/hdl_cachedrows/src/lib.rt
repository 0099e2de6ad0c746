//! A table that keeps what was read or created last: the contract of `hdl_rows::Rows`, word for word, over any other table.
//!
//! [`CachedRows`] wraps a table of any kind. A read of a handle whose values are kept is answered from a hash map, in memory, and
//! takes no call of that table; any other goes to it. What [`look`](hdl_rows::Rows::look) found is kept, and so is what
//! [`create`](hdl_rows::Rows::create) put: as far as the bound goes, the first questions after a start are answered from memory. Of a handle
//! whose values cost too much their heads are kept, which answer `exists`, `heads`, and `at` for an index without a value. A write reaches
//! the table as it came. So that table decides all that is said and refused, and its count is the count. Values that it added or replaced are
//! put among those that are kept; a removal or deletion forgets the handle that it names.
//!
//! What is kept has a bound in octets. Where a handle more would be too much, those that were used longest ago go. That the bound is kept is
//! proved ([`CachedRows::octets`]), and that what is kept is the table's (`AreTrue` of `specs/Cache.antt`).
//!
//! It stands on `hdl_rows` and the kit's `lru`. Crates above know it through `Rows`.
//!
//! ```rust
//! // crates/hdl_program_tests/src/cached_rows.rt
//! let rows = PlainRows::new(rt.alloc());
//! let mut cached = CachedRows::new(rt.alloc(), rows, LIMIT_DEFAULT, RandomState::new(&rt)?)?;
//! each_call(&rt, rt.alloc(), &mut cached)
//! ```
//!
//! # Decisions
//!
//! - **One bound, in octets, and none for the number of handles**: a handle costs 192 at least, so the bound is one for handles too. The fixed
//!   sums of `specs/Cost.antt` are what glibc takes at most; a handle with one short value costs some 390 and was seen to take 320.
//! - **One handle takes at most a sixty-fourth of the bound**, so it can't push all others out. If its values cost more, their heads are kept,
//!   and each shown value is one call of the table. By default that is 655,360 octets, which the heads of 1,024 values never exceed. With a
//!   bound so small that the heads cost more than their share, nothing is kept of the handle.
//! - **An add copies no handle**: to forget it would let the next question read all of its values again. So an add costs what its own values cost,
//!   and a look over the heads that are kept. If what is kept outgrows its share, the handle is forgotten, once.
//! - **What stays dear is the first question** about a large handle: after a removal of its values, and after other handles pushed its heads out.
//!   That question reads all of its values, for their heads: 50 milliseconds for 32 MB in SQL. So does `values` each time.
//! - **Handles that are absent aren't kept**: a client that asks for names that don't exist would push out those that are asked for.
//! - **`look` and `create` keep**: no other call tells both whether a handle is there and all of its values. If `heads` finds nothing kept, it
//!   calls `look`, so that a small handle is read once for its heads and its values. `values`, `at` and `exists` are answered from what is kept.
//! - **What is created is kept as if it had been looked at**: it costs one copy and no call of the table, and spares the first question of each
//!   handle one, ten microseconds in SQL. So a start takes the cache's memory at once. The values of a handle that is created are all that it
//!   has only where no absent handle has any (`IsPlaced`). That holds of a table that was empty in the beginning, so `new` takes no other.
//! - **A copy that memory was refused for is asked of the table**, which answers or refuses as it would have without.
//! - **`remove` and `delete` forget their handle, refused ones too**: that costs a look-up, and one rule is easier than two. Any other write that
//!   is refused changes nothing of what is kept, and nothing is kept of a handle that was to be created.
//! - **The hasher has random keys**: names are chosen by publishers, and with a fixed seed one of them could choose names that all fall into
//!   one place, and each look-up would go over all of them.
//! - **No room is taken before it is used**: `lru` reserves the map's room for a cache with a number of entries, so this one has none, and
//!   what is too much is let go before a handle is put.
//! - **All publishers share what is kept**: one can push out what another's clients ask for. That changes times, and no octet of an answer.
//! - **No clause says that a read is answered from what is kept**: contracts say what is found. hdl_program_tests sees it, over a table that
//!   refuses a second call.
#![tactic(auto)]

mod cache;
mod cached;
mod cached_handle;
mod cost;

pub use cached::{CachedRows, LIMIT_DEFAULT};
