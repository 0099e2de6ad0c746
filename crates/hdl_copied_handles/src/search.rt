//! What is looked for in a list.

ghost use Rattle.std.specs.Prelude.{◌≡◌, IfOk, Bool};
ghost use Rattle.hdl_copied_handles.specs.Search.{begins, has_words, is_found, occurs, words_of};

use crate::listed::ListedHandle;
use hdl_limits::Octets;
use std::alloc::{AllocError, Global};

/// What is looked for: words in a handle's name, and words in the address to which it leads.
#[derive(Drop)]
pub struct Search {
    pub name: Vec<Octets>,
    pub url: Vec<Octets>,
}

/// Whether a text begins with this word. Small and capital letters of ASCII are alike.
fn begins(word: &[u8], text: &[u8]) -> bool
    ensures { result ≡ begins word.now text.now }
{
    let mut rest = text;
    for letter in word {
        let Some((first, others)) = rest.split_first() else {
            return false;
        };
        if !letter.eq_ignore_ascii_case(first) {
            return false;
        }
        rest = others;
    }
    true
}

/// Whether a word stands anywhere in a text.
fn occurs(word: &[u8], text: &[u8]) -> bool
    ensures { result ≡ occurs word.now text.now }
{
    for index in 0..text.len() {
        if begins(word, &text[index..]) {
            return true;
        }
    }
    begins(word, b"")
}

/// Whether all of these words stand in a text.
fn has_words(words: &[Octets], text: &[u8]) -> bool
    ensures { result ≡ has_words words.now text.now }
{
    for word in words {
        if !occurs(word.as_slice(), text) {
            return false;
        }
    }
    true
}

/// Whether a handle is one that is looked for.
pub(crate) fn is_found(search: &Search, handle: &ListedHandle) -> bool
    ensures { result ≡ is_found search.now handle.now }
{
    has_words(&search.name, handle.name.as_slice()) && has_words(&search.url, handle.url.as_slice())
}

/// The words of a text, which spaces part.
pub fn words_of(alloc: Global, text: &[u8]) -> Result<Vec<Octets>, AllocError>
    ensures { IfOk result (λ words. words.items ≡ words_of text.now) }
{
    let mut words = Vec::new(alloc);
    let mut word = Vec::new(alloc);
    for octet in text {
        if *octet == b' ' {
            words.push(Octets::new(word))?;
            word = Vec::new(alloc);
        } else {
            word.push(*octet)?;
        }
    }
    words.push(Octets::new(word))?;
    Ok(words)
}
