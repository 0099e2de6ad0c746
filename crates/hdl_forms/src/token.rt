//! Tokens of forms, by which this process knows that it made a form, for what, and when.

ghost use Rattle.std.specs.Prelude.{◌≡◌, IfOk};
ghost use Rattle.hdl_forms.specs.Token.{accepts, is_fresh, moment_in, seal, sealed_text, token_of};

use hdl_value_lines::{cut_at, number_in};
use sha2::{Digest, Sha256};
use std::alloc::{AllocError, Global};

/// How long a form may be sent after it was made, in seconds.
pub const FORM_LIFE_SECONDS: u32 = 3600;

/// Octets that no one can guess, with which tokens are made. They can't be printed.
#[derive(Drop)]
pub struct TokenKey {
    pub inner: [u8; 64],
    pub outer: [u8; 64],
}

/// What a token seals: the moment, and what its form is for.
fn sealed_text(alloc: Global, subject: &[u8], moment: u32) -> Result<Vec<u8>, AllocError>
    ensures { IfOk result (λ text. text.items ≡ sealed_text subject.now moment) }
{
    let digits = format!(in alloc; "{moment}")?;
    let mut text = Vec::from_slice(alloc, digits.as_bytes())?;
    text.push(b' ')?;
    text.extend_from_slice(subject)?;
    Ok(text)
}

impl TokenKey {
    /// The digest of a text under this key.
    #[tactic(auto, unfolding(crate::specs::Token::seal))]
    fn seal(&self, text: &[u8]) -> [u8; 32]
        ensures { result ≡ seal self.now text.now }
    {
        let mut within = Sha256::new();
        within.update(&self.inner[..]);
        within.update(text);
        let within = within.finalize();
        let mut around = Sha256::new();
        around.update(&self.outer[..]);
        around.update(&within[..]);
        around.finalize()
    }

    /// The token of a form for this, made at this moment in seconds: the moment, and its digest with what the form is for.
    #[tactic(auto, unfolding(crate::specs::Token::token_of))]
    pub fn token_of(
        &self,
        alloc: Global,
        subject: &[u8],
        moment: u32,
    ) -> Result<Vec<u8>, AllocError>
        ensures { IfOk result (λ token. token.items ≡ token_of self.now subject.now moment) }
    {
        let text = sealed_text(alloc, subject, moment)?;
        let digits = hex::encode(alloc, &self.seal(&text))?;
        let moment = format!(in alloc; "{moment}")?;
        let mut token = Vec::from_slice(alloc, moment.as_bytes())?;
        token.push(b'-')?;
        token.extend_from_slice(digits.as_bytes())?;
        Ok(token)
    }

    /// Whether this is the token of a form for this, made at most [`FORM_LIFE_SECONDS`] seconds before now.
    #[tactic(auto, unfolding(crate::specs::Token::accepts))]
    pub fn accepts(
        &self,
        alloc: Global,
        subject: &[u8],
        now: u32,
        token: &[u8],
    ) -> Result<bool, AllocError>
        ensures { IfOk result (λ accepted. accepted ≡ accepts self.now subject.now now token.now) }
    {
        let Some(moment) = moment_in(token) else {
            return Ok(false);
        };
        let made = self.token_of(alloc, subject, moment)?;
        Ok(is_fresh(now, moment) && token == made.as_slice())
    }
}

/// The moment that a token says.
#[tactic(auto, unfolding(crate::specs::Token::moment_in))]
fn moment_in(token: &[u8]) -> Option<u32>
    ensures { result ≡ moment_in token.now }
{
    let (moment, _) = cut_at(token, b'-')?;
    number_in(moment)
}

fn is_fresh(now: u32, moment: u32) -> bool
    ensures { result ≡ is_fresh now moment }
{
    moment <= now && now - moment < FORM_LIFE_SECONDS
}
