//! The data of an HS_SITE value: which servers answer for a prefix, where, and for what.
//!
//! ```text
//! ServerPlan -> planned_octets -> the octets of a site with one server
//! octets -> read_site -> SiteInfo -> write_site -> the same octets
//! ```
//!
//! The layout is that of RFC 3651, section 3.2.2, as, to our knowledge, the Handle.Net software has it (docs/HANDLE_NET.md).
//! `specs/Info.antt` defines it once, for reading and writing. [`site_read_as_spelt`] is the law that both are inverse: octets say at
//! most one site, and what is written is read as it was.
//!
//! ```rust
//! // crates/hdl_commands/src/sites.rt
//! Ok(planned_octets(alloc, plan)?)
//! ```
//!
//! # Decisions
//!
//! - **An IPv4 address stands after zeros**, not after `::ffff`. Both are read as IPv4 where a site is shown.
//! - **Any numbers are read.** What an unknown protocol or hash option means is for who shows it; nothing here goes by it.
//! - **The public key is octets.** No code of this product reads key records.
#![tactic(auto)]

mod info;
mod laws;
mod making;
mod reading;
mod writing;

pub use info::{Attribute, Interface, SiteInfo, SiteServer};
pub use laws::{example_is_laid_out, site_read_as_spelt};
pub use making::{
    ADMINISTRATION, ALL_OF_HANDLE, BOTH, HTTP, PRIMARY, QUERY, SEVERAL_PRIMARIES, ServerPlan, TCP,
    UDP, address_octets, planned_octets, site_of,
};
pub use reading::read_site;
pub use writing::write_site;
