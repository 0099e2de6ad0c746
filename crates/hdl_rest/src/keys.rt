//! Keys of JSON that stand twice in an object.

ghost use Rattle.std.specs.Prelude.{◌≡◌, ◌↔◌, ℕ, List, IsTrue, IfOk};
ghost use Rattle.json.specs.Lex.{tokens};
ghost use Rattle.json.specs.Reads.{token_of};
ghost use Rattle.serde_json.specs.View.{view};
ghost use Rattle.serde_json.specs.Written.{IsInOrder};
ghost use Rattle.hdl_rest.specs.Keys.{is_key, keys_in};

use json::{Reader, Scratch, Token};
use serde_json::Value as Json;
use std::alloc::{AllocError, Global};

fn is_key(token: Token<'_>) -> bool
    ensures { result ≡ is_key (token_of token.entry) }
{
    matches!(token, Token::Key(_))
}

/// How many keys stand in a text.
fn keys_in(alloc: Global, text: &str) -> Result<u64, AllocError>
    ensures { IfOk result (λ count. count ≡ keys_in (tokens text.now)) }
{
    let mut scratch = Scratch::new(alloc);
    let mut reader = Reader::new(text, &mut scratch)?;
    let mut count = 0u64;
    for _ in 0..u64::MAX {
        let Some(token) = reader.next() else {
            return Ok(count);
        };
        if is_key(token) {
            count += 1;
        }
    }
    // No memory holds a text of that length.
    Err(AllocError)
}

/// Whether each object of this text, which was read as this JSON, has each of its keys once: of a key that stands twice only the last value is read.
pub(crate) fn has_unique_keys(alloc: Global, text: &str, json: &Json) -> Result<bool, AllocError>
    ensures { IfOk result (λ once. (told : List ℕ) × IsInOrder told (view json.now) × (IsTrue once ↔ (keys_in (tokens text.now) ≡ keys_in (tokens told)))) }
{
    let told = json.to_string(alloc)?;
    let keys = keys_in(alloc, text)?;
    Ok(keys == keys_in(alloc, told.as_str())?)
}
