//! Text inside a page.

ghost use Rattle.std.specs.Prelude.{◌≡◌, ◌++◌, IfOk, OnOk};
ghost use Rattle.std.specs.String.{string_bytes};
ghost use Rattle.hdl_proxy.specs.Escape.{entities, entity, escaped, visible_char, visible_text};

use std::alloc::{AllocError, Global};

/// Adds one octet of a text, as its entity where markup could begin or an attribute end there.
fn put_octet(out: &mut Vec<u8>, octet: u8) -> Result<(), AllocError>
    ensures { OnOk result (out.new.items ≡ out.old.items ++ entity octet) }
{
    match octet {
        b'&' => out.extend_from_slice(b"&amp;"),
        b'<' => out.extend_from_slice(b"&lt;"),
        b'>' => out.extend_from_slice(b"&gt;"),
        b'"' => out.extend_from_slice(b"&quot;"),
        b'\'' => out.extend_from_slice(b"&#39;"),
        other => Ok(out.push(other)?),
    }
}

fn put_entities(out: &mut Vec<u8>, text: &[u8]) -> Result<(), AllocError>
    ensures { OnOk result (out.new.items ≡ out.old.items ++ entities text.now) }
{
    for octet in text {
        put_octet(out, *octet)?;
    }
    Ok(())
}

/// Adds a character, or the number of one that turns the direction of the text around it (Unicode, Bidi_Control).
fn put_visible(out: &mut String, c: char) -> Result<(), AllocError>
    ensures { OnOk result (string_bytes out.new ≡ string_bytes out.old ++ visible_char c) }
{
    match c {
        '\u{61c}' => out.push_str("[U+061C]"),
        '\u{200e}' => out.push_str("[U+200E]"),
        '\u{200f}' => out.push_str("[U+200F]"),
        '\u{202a}' => out.push_str("[U+202A]"),
        '\u{202b}' => out.push_str("[U+202B]"),
        '\u{202c}' => out.push_str("[U+202C]"),
        '\u{202d}' => out.push_str("[U+202D]"),
        '\u{202e}' => out.push_str("[U+202E]"),
        '\u{2066}' => out.push_str("[U+2066]"),
        '\u{2067}' => out.push_str("[U+2067]"),
        '\u{2068}' => out.push_str("[U+2068]"),
        '\u{2069}' => out.push_str("[U+2069]"),
        other => out.push(other),
    }
}

fn visible_text(alloc: Global, text: &str) -> Result<String, AllocError>
    ensures { IfOk result (λ out. string_bytes out ≡ visible_text text.now) }
{
    let mut out = String::new(alloc);
    for c in text.chars() {
        put_visible(&mut out, c)?;
    }
    Ok(out)
}

/// Adds a text so that it is text wherever it stands, also inside an attribute in quotes, and turns no direction but its own. What it adds
/// holds no `<`, `>`, `"` or `'`, and an `&` only at the front of an entity.
#[tactic(auto, unfolding(crate::specs::Escape::escaped))]
pub fn put_escaped(out: &mut Vec<u8>, alloc: Global, text: &[u8]) -> Result<(), AllocError>
    ensures { OnOk result (out.new.items ≡ out.old.items ++ escaped text.now) }
{
    let Ok(whole) = str::from_utf8(text) else {
        return put_entities(out, text);
    };
    let shown = visible_text(alloc, whole)?;
    put_entities(out, shown.as_bytes())
}
