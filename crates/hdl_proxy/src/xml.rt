//! The little of XML that locations take: tags with attributes, and the five entities.

ghost use Rattle.std.specs.Prelude.{◌≡◌, ◌≢◌, ◌<◌, ◌≤◌, take, ℕ, List, [], ◌∷◌, ◌++◌, length, All, IfOk, IfNone, IfSome, option_copied};
ghost use Rattle.std.specs.List.{AllPass, AllZip, concat};
ghost use Rattle.hdl_proxy.specs.Xml.{is_blank, is_in_name, StandsFor, Says, IsQuoted, IsNamed, IsAttribute, IsTag, IsInComment, IsComment, IsBetween, attribute_value};

use std::alloc::{AllocError, Global};

/// The most attributes of a tag.
const ATTRIBUTES_MOST: usize = 32;

/// The most comments that stand side by side.
const COMMENTS_MOST: usize = 256;

/// An attribute, its entities read.
#[derive(Drop)]
pub(crate) struct Attribute {
    pub(crate) name: Vec<u8>,
    pub(crate) text: Vec<u8>,
}

fn is_blank(byte: u8) -> bool
    ensures { result ≡ is_blank byte }
{
    byte == b' ' || byte == b'\t' || byte == b'\n' || byte == b'\r'
}

/// Whether a byte may stand in a name.
fn is_in_name(byte: u8) -> bool
    ensures { result ≡ is_in_name byte }
{
    (byte >= b'a' && byte <= b'z')
        || (byte >= b'A' && byte <= b'Z')
        || (byte >= b'0' && byte <= b':')
        || byte == b'-'
        || byte == b'.'
        || byte == b'_'
}

/// What follows this front, if a text begins with it.
pub(crate) fn after<'a>(text: &'a [u8], front: &[u8]) -> Option<&'a [u8]>
    ensures found { IfSome result (λ rest. text.now ≡ front.now ++ rest.now) }
    ensures none { IfNone result ((rest : List ℕ) → text.now ≢ front.now ++ rest) }
{
    let (found, rest) = text.split_at_checked(front.len())?;
    if found == front { Some(rest) } else { None }
}

/// How many bytes at the front of a text are blanks.
fn count_blank(text: &[u8]) -> usize
    ensures within { result ≤ length text.now }
    ensures blank { AllPass is_blank (take result text.now) }
{
    for (count, byte) in text.iter().enumerate() {
        if !is_blank(*byte) {
            return count;
        }
    }
    text.len()
}

/// The blanks at the front of a text, and the rest.
pub(crate) fn cut_blank(text: &[u8]) -> (&[u8], &[u8])
    ensures { AllPass is_blank result.0.now × (text.now ≡ result.0.now ++ result.1.now) }
{
    text.split_at(count_blank(text))
}

/// How many bytes at the front of a text may stand in a name.
fn count_name(text: &[u8]) -> usize
    ensures within { result ≤ length text.now }
    ensures name { AllPass is_in_name (take result text.now) }
{
    for (count, byte) in text.iter().enumerate() {
        if !is_in_name(*byte) {
            return count;
        }
    }
    text.len()
}

/// The name at the front of a text, and the rest. None where there is none.
fn cut_name(text: &[u8]) -> Option<(&[u8], &[u8])>
    ensures { IfSome result (λ cut. AllPass is_in_name cut.0.now × (0 < length cut.0.now) × (text.now ≡ cut.0.now ++ cut.1.now)) }
{
    let count = count_name(text);
    if count == 0 {
        return None;
    }
    Some(text.split_at(count))
}

/// What stands before the first of these bytes, and what follows it.
fn cut_at(text: &[u8], end: u8) -> Option<(&[u8], &[u8])>
    ensures { IfSome result (λ cut. All (λ byte. byte ≢ end) cut.0.now × (text.now ≡ cut.0.now ++ (end ∷ cut.1.now))) }
{
    for (count, byte) in text.iter().enumerate() {
        if *byte == end {
            return Some((&text[..count], &text[count + 1..]));
        }
    }
    None
}

/// What follows one of five entities, and the byte that it stands for.
fn read_entity(text: &[u8]) -> Option<(u8, &[u8])>
    ensures { IfSome result (λ read. (piece : List ℕ) × (StandsFor piece read.0 × (text.now ≡ piece ++ read.1.now))) }
{
    if let Some(rest) = after(text, b"&amp;") {
        return Some((b'&', rest));
    }
    if let Some(rest) = after(text, b"&lt;") {
        return Some((b'<', rest));
    }
    if let Some(rest) = after(text, b"&gt;") {
        return Some((b'>', rest));
    }
    if let Some(rest) = after(text, b"&quot;") {
        return Some((b'"', rest));
    }
    match after(text, b"&apos;") {
        Some(rest) => Some((b'\'', rest)),
        None => None,
    }
}

/// The byte that the front of a text stands for, and what follows that.
fn read_byte(text: &[u8]) -> Option<(u8, &[u8])>
    ensures { IfSome result (λ read. (piece : List ℕ) × (StandsFor piece read.0 × (text.now ≡ piece ++ read.1.now))) }
{
    let (byte, rest) = text.split_first()?;
    if *byte == b'&' {
        return read_entity(text);
    }
    if *byte == b'<' {
        return None;
    }
    Some((*byte, rest))
}

/// What a text in quotes says. None where it can't be read.
fn read_text(alloc: Global, written: &[u8]) -> Result<Option<Vec<u8>>, AllocError>
    ensures { IfOk result (λ read. IfSome read (λ text. Says written.now text.items)) }
{
    let mut text = Vec::new(alloc);
    let mut rest = written;
    for _ in 0..written.len() {
        let Some((byte, behind)) = read_byte(rest) else {
            break;
        };
        text.push(byte)?;
        rest = behind;
    }
    if rest.is_empty() {
        Ok(Some(text))
    } else {
        Ok(None)
    }
}

/// What the text in quotes says that stands at the front, and what follows it. None where there is none that can be read.
fn read_quoted(alloc: Global, written: &[u8]) -> Result<Option<(Vec<u8>, &[u8])>, AllocError>
    ensures { IfOk result (λ read. IfSome read (λ found. (piece : List ℕ) × (IsQuoted piece found.0.items × (written.now ≡ piece ++ found.1.now)))) }
{
    let Some((quote, rest)) = written.split_first() else {
        return Ok(None);
    };
    if *quote != b'"' && *quote != b'\'' {
        return Ok(None);
    }
    let Some((inside, behind)) = cut_at(rest, *quote) else {
        return Ok(None);
    };
    match read_text(alloc, inside)? {
        Some(text) => Ok(Some((text, behind))),
        None => Ok(None),
    }
}

/// The name of the attribute at the front, and what follows its equals sign. None where there is none.
fn cut_named(text: &[u8]) -> Option<(&[u8], &[u8])>
    ensures { IfSome result (λ cut. (piece : List ℕ) × (IsNamed piece cut.0.now × (text.now ≡ piece ++ cut.1.now))) }
{
    let (front, rest) = cut_blank(text);
    if front.is_empty() {
        return None;
    }
    let (name, rest) = cut_name(rest)?;
    let (_, rest) = cut_blank(rest);
    let rest = after(rest, b"=")?;
    let (_, rest) = cut_blank(rest);
    Some((name, rest))
}

/// The attribute at the front, and what follows it. None where there is none that can be read.
fn read_attribute(alloc: Global, text: &[u8]) -> Result<Option<(Attribute, &[u8])>, AllocError>
    ensures { IfOk result (λ read. IfSome read (λ found. (piece : List ℕ) × (IsAttribute piece found.0 × (text.now ≡ piece ++ found.1.now)))) }
{
    let Some((name, rest)) = cut_named(text) else {
        return Ok(None);
    };
    match read_quoted(alloc, rest)? {
        Some((text, behind)) => {
            let name = Vec::from_slice(alloc, name)?;
            Ok(Some((Attribute { name, text }, behind)))
        }
        None => Ok(None),
    }
}

/// The attributes at the front, each of a name of its own, and what follows them.
fn read_attributes(alloc: Global, text: &[u8]) -> Result<(Vec<Attribute>, &[u8]), AllocError>
    ensures { IfOk result (λ read. (pieces : List (List ℕ)) × (AllZip IsAttribute pieces read.0.items × (text.now ≡ concat pieces ++ read.1.now))) }
{
    let mut attributes = Vec::new(alloc);
    let mut rest = text;
    for _ in 0..ATTRIBUTES_MOST {
        let Some((attribute, behind)) = read_attribute(alloc, rest)? else {
            break;
        };
        attributes.push(attribute)?;
        rest = behind;
    }
    Ok((attributes, rest))
}

/// What an attribute of this name says, the first one where there are several, if there is one.
pub(crate) fn attribute_value<'a>(attributes: &'a [Attribute], name: &[u8]) -> Option<&'a [u8]>
    ensures { option_copied result ≡ attribute_value name.now attributes.now }
{
    for one in attributes {
        if one.name.as_slice() == name {
            return Some(&one.text);
        }
    }
    None
}

/// The attributes of the tag at the front that begins so, and where it ends. None where there is none.
pub(crate) fn read_tag<'a>(
    alloc: Global,
    text: &'a [u8],
    front: &[u8],
) -> Result<Option<(Vec<Attribute>, &'a [u8])>, AllocError>
    ensures { IfOk result (λ read. IfSome read (λ found. (tag : List ℕ) × (IsTag front.now tag found.0.items × (text.now ≡ tag ++ found.1.now)))) }
{
    let Some(rest) = after(text, front) else {
        return Ok(None);
    };
    let (attributes, rest) = read_attributes(alloc, rest)?;
    let (_, rest) = cut_blank(rest);
    Ok(Some((attributes, rest)))
}

/// What follows one piece of a comment.
fn cut_in_comment(text: &[u8]) -> Option<&[u8]>
    ensures { IfSome result (λ rest. (piece : List ℕ) × (IsInComment piece × (text.now ≡ piece ++ rest.now))) }
{
    let (first, rest) = text.split_first()?;
    if *first != b'-' {
        return Some(rest);
    }
    let (second, rest) = rest.split_first()?;
    if *second == b'-' { None } else { Some(rest) }
}

/// What follows the comment at the front. None where there is none.
fn cut_comment(text: &[u8]) -> Option<&[u8]>
    ensures { IfSome result (λ rest. (comment : List ℕ) × (IsComment comment × (text.now ≡ comment ++ rest.now))) }
{
    let mut rest = after(text, b"<!--")?;
    for _ in 0..text.len() {
        if let Some(behind) = after(rest, b"-->") {
            return Some(behind);
        }
        rest = cut_in_comment(rest)?;
    }
    None
}

/// What follows blanks and comments.
pub(crate) fn cut_between(text: &[u8]) -> &[u8]
    ensures { (between : List ℕ) × (IsBetween between × (text.now ≡ between ++ result.now)) }
{
    let mut rest = text;
    for _ in 0..COMMENTS_MOST {
        let (_, behind) = cut_blank(rest);
        rest = behind;
        let Some(behind) = cut_comment(rest) else {
            break;
        };
        rest = behind;
    }
    rest
}
