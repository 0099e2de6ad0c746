//! A tenants text, checked before it is served: all of its faults in words, or what it has.
//!
//! ```text
//! text -> check -> Report: each faulty line with what is wrong and what to do, or what each publisher gets
//! ```
//!
//! [`hdl_tenants::Tenants::read`] judges the whole text. If it refuses that, it judges each line too, in a text of those accepted lines before it that it
//! rests on, and the text without its faulty lines. The words only explain. Promised is that a text is told as accepted exactly if the service
//! accepts it (`specs/Report.antt`); what is printed is tested.
//!
//! ```rust
//! // crates/handled/src/checking.rt
//! match check(rt.alloc(), text)? {
//!     Report::Accepted(lines) => {
//!         put_all(&mut rt.stdout(), lines.as_bytes())?;
//!         Ok(ExitStatus::Success)
//!     }
//!     Report::Refused(faults) => {
//!         for fault in &faults {
//!             let line = fault.line;
//!             let words = fault.words.as_str();
//!             let _ = eprintln!(rt; "tenants: line {line}: {words}");
//!         }
//!         Ok(ExitStatus::Tenants)
//!     }
//! ```
#![tactic(auto)]

mod administrators;
mod judging;
mod lines_by_key;
mod reasons;
mod report;

pub use report::{LineFault, Report, check};
