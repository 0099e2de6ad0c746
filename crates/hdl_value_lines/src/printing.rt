//! Octets as people are shown them: no handle, type or text drives a terminal, or makes two lines of one.

ghost use Rattle.std.specs.Prelude.{◌≡◌, ◌++◌, IfOk, OnOk};
ghost use Rattle.std.specs.String.{string_bytes};
ghost use Rattle.hdl_value_lines.specs.Printed.{escape, printed_char, printed_text, printed_octets};

use std::alloc::{AllocError, Global};

/// A character by its number, as Rust escapes it.
fn escape(alloc: Global, c: char) -> Result<String, AllocError>
    ensures { IfOk result (λ text. string_bytes text ≡ escape c) }
{
    let number = c as u32;
    format!(in alloc; "\\u{{{number:x}}}")
}

/// Puts a character at the end: a control character by its escape.
fn put_printed(out: &mut String, alloc: Global, c: char) -> Result<(), AllocError>
    ensures { OnOk result (string_bytes out.new ≡ string_bytes out.old ++ printed_char c) }
{
    if !c.is_control() {
        return out.push(c);
    }
    let text = escape(alloc, c)?;
    out.push_str(&text)
}

fn printed_text(alloc: Global, text: &str) -> Result<String, AllocError>
    ensures { IfOk result (λ out. string_bytes out ≡ printed_text text.now) }
{
    let mut out = String::new(alloc);
    for c in text.chars() {
        put_printed(&mut out, alloc, c)?;
    }
    Ok(out)
}

/// Octets as they are printed: the characters of a text, control characters by their escapes as `\u{1b}`, and the digits of what is no
/// text. No control character is in it. A value's line is printed as it is.
pub fn printed_octets(alloc: Global, octets: &[u8]) -> Result<String, AllocError>
    ensures { IfOk result (λ text. string_bytes text ≡ printed_octets octets.now) }
{
    let Ok(text) = str::from_utf8(octets) else {
        return hex::encode(alloc, octets);
    };
    printed_text(alloc, text)
}
