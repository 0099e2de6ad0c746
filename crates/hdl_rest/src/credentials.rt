//! The key that comes with a request.

ghost use Rattle.std.specs.Prelude.{◌≡◌, ◌⊎◌, IfOk, IfErr, option_map, option_copied};
ghost use Rattle.percent_encoding.specs.Percent.{percent_decode};
ghost use Rattle.hdl_value.specs.Reading.{Reads};
ghost use Rattle.hdl_rest.specs.Credentials.{basic_in, user_in, key_by, key_in_text, decode, key_in, IsKeyFault};
ghost use Rattle.hdl_rest.specs.declared.credentials.CredentialFault.TheVariants as key_fault;

use crate::data::is_named;
use base64::DecodeAllocError;
use base64::engine::general_purpose::STANDARD;
use hdl_client::Key;
use hdl_limits::Octets;
use hdl_value_lines::{cut_at, number_in};
use percent_encoding::percent_decode;
use std::alloc::{AllocError, Global};
use thiserror::Error;

/// What is wrong with the field `Authorization`. None of them carries octets of it.
#[derive(Clone, Copy, Debug, PartialEq, Eq, Error)]
pub enum CredentialFault {
    #[error("A key is needed: send the field Authorization with Basic and INDEX:HANDLE as the user.")]
    Missing,
    #[error("The field Authorization isn't Basic.")]
    Scheme,
    #[error("The field Authorization isn't base64 of a user, a colon and a secret.")]
    Base64,
    #[error("The user of the field Authorization isn't INDEX:HANDLE with its colon written %3A, such as 300%3A0.NA/10.")]
    User,
    #[error("The secret of the field Authorization is empty.")]
    Secret,
    #[error("no memory")]
    Memory,
}

impl From<AllocError> for CredentialFault {
    ghost from_gives = { λ _ e. e ≡ key_fault.Memory };

    fn from(_e: AllocError) -> CredentialFault {
        CredentialFault::Memory
    }
}

const BASIC: &[u8] = b"basic ";

/// What follows the word Basic.
fn basic_in(field: &[u8]) -> Option<&[u8]>
    ensures { Reads (λ text. text.now) result (basic_in field.now) }
{
    let (front, rest) = field.split_at_checked(6)?;
    if !front.eq_ignore_ascii_case(BASIC) {
        return None;
    }
    Some(rest)
}

/// The octets that a part stands for: its escapes are read once.
fn unescape(alloc: Global, part: &[u8]) -> Result<Vec<u8>, AllocError>
    ensures { IfOk result (λ octets. octets.items ≡ percent_decode part.now) }
{
    let mut octets = Vec::new(alloc);
    percent_decode(part).append_to(&mut octets)?;
    Ok(octets)
}

/// Index and handle of `INDEX:HANDLE`.
#[tactic(auto, unfolding(crate::specs::Credentials::user_in))]
fn user_in(user: &[u8]) -> Option<(u32, &[u8])>
    ensures { Reads (λ x. record { handle = x.1.now; index = x.0 }) result (user_in user.now) }
{
    let (index, handle) = cut_at(user, b':')?;
    let index = number_in(index)?;
    if index == 0 {
        return None;
    }
    if !is_named(handle) {
        return None;
    }
    Some((index, handle))
}

/// The key of both parts, each with its escapes.
#[tactic(auto, unfolding(crate::specs::Credentials::key_by))]
fn key_by(alloc: Global, user: &[u8], secret: &[u8]) -> Result<Key, CredentialFault>
    ensures key { IfOk result (λ key. key_by user.now secret.now ≡ Ok key) }
    ensures fault { IfErr result (IsKeyFault (key_by user.now secret.now)) }
{
    let user = unescape(alloc, user)?;
    let Some((index, handle)) = user_in(&user) else {
        return Err(CredentialFault::User);
    };
    let secret = unescape(alloc, secret)?;
    if secret.is_empty() {
        return Err(CredentialFault::Secret);
    }
    Ok(Key {
        handle: Octets::new(Vec::from_slice(alloc, handle)?),
        index,
        secret: Octets::new(secret),
    })
}

/// The key of user, colon and secret.
#[tactic(auto, unfolding(crate::specs::Credentials::key_in_text))]
fn key_in_text(alloc: Global, text: &[u8]) -> Result<Key, CredentialFault>
    ensures key { IfOk result (λ key. key_in_text text.now ≡ Ok key) }
    ensures fault { IfErr result (IsKeyFault (key_in_text text.now)) }
{
    match cut_at(text, b':') {
        Some((user, secret)) => key_by(alloc, user, secret),
        None => Err(CredentialFault::Base64),
    }
}

fn decode(alloc: Global, text: &[u8]) -> Result<Option<Vec<u8>>, AllocError>
    ensures { IfOk result (λ o. option_map (λ v. v.items) o ≡ decode text.now) }
{
    match STANDARD.decode(alloc, text) {
        Ok(octets) => Ok(Some(octets)),
        Err(DecodeAllocError::OutOfMemory) => Err(AllocError),
        Err(_) => Ok(None),
    }
}

/// The key of the field `Authorization`, if there is one: `Basic` and base64 of user, colon and secret, both percent-encoded once. The
/// user is `INDEX:HANDLE`. Else the first thing that is wrong with it.
#[tactic(auto, unfolding(crate::specs::Credentials::key_in))]
pub fn read_key(alloc: Global, field: Option<&[u8]>) -> Result<Key, CredentialFault>
    ensures key { IfOk result (λ key. key_in (option_copied field.entry) ≡ Ok key) }
    ensures fault { IfErr result (IsKeyFault (key_in (option_copied field.entry))) }
{
    let Some(field) = field else {
        return Err(CredentialFault::Missing);
    };
    let Some(text) = basic_in(field) else {
        return Err(CredentialFault::Scheme);
    };
    match decode(alloc, text)? {
        Some(told) => key_in_text(alloc, &told),
        None => Err(CredentialFault::Base64),
    }
}
