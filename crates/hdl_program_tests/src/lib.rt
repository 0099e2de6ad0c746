//! Tests of what stands on several crates: tables through their bound, in memory and in SQL, whose write comes next, and two workers at a time, which
//! need threads.
//!
//! They stand apart from those of `hdl_tests`, which need neither SQL nor the machine and so begin earlier. Beside the tests it has
//! the values that a table is to keep ([`values`]); nothing stands on it.
#![tactic(auto)]

#[cfg(test)]
mod agreement;
#[cfg(test)]
mod assertion;
#[cfg(test)]
mod awkward;
#[cfg(test)]
mod cached_rows;
#[cfg(test)]
mod lasting_rows;
#[cfg(test)]
mod one_event;
#[cfg(test)]
mod partitioned_rows;
#[cfg(test)]
mod rows;
#[cfg(test)]
mod two_workers;
pub mod values;
#[cfg(test)]
mod write_queue;
#[cfg(test)]
mod writes;
