//! Names whose suffix is drawn.

ghost use Rattle.std.specs.Prelude.{◌≡◌, IfOk};
ghost use Rattle.hdl_rest.specs.Suffix.{letter, with_suffix};

use std::alloc::{AllocError, Global};

/// How many letters a suffix has. Each is one of 32, so there are 2^80 suffixes.
pub const SUFFIX_LEN: usize = 16;

/// The letters of a suffix: digits and small letters without `i`, `l`, `o` and `u`, so that none looks like another one.
const LETTERS: &[u8; 32] = b"0123456789abcdefghjkmnpqrstvwxyz";

/// The letter that an octet draws: each octet is as likely as another one, and so is each letter.
fn letter(octet: u8) -> u8
    ensures { result ≡ letter octet }
{
    LETTERS[usize::from(octet % 32)]
}

/// The front, followed by the letters that the drawn octets stand for.
pub fn with_suffix(alloc: Global, front: &[u8], drawn: &[u8]) -> Result<Vec<u8>, AllocError>
    ensures { IfOk result (λ name. name.items ≡ with_suffix front.now drawn.now) }
{
    let mut name = Vec::from_slice(alloc, front)?;
    for octet in drawn {
        name.push(letter(*octet))?;
    }
    Ok(name)
}
