//! The tests of the crates that keep something and of those that decide, up to `hdl_ops`, by what they hand out: a file for each crate.
//!
//! A crate with tests is proved twice and linked as a program of its own, however few they are. What a crate hands out is tested
//! here, or is a line of `hdl_vectors` where it is a meaning of octets or of a few steps, so the crate is proved once. Beside the tests
//! this one has what several of them make ([`made`]), on which `hdl_program_tests` stands.
#![tactic(auto)]

#[cfg(test)]
mod assertion;
#[cfg(test)]
mod cache;
pub mod made;
#[cfg(test)]
mod masks;
#[cfg(test)]
mod ops;
#[cfg(test)]
mod reach;
#[cfg(test)]
mod slots;
#[cfg(test)]
mod tenants;
