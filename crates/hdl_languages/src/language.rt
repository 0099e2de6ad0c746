//! The languages of the pages, and which one a request prefers.

ghost use Rattle.std.specs.Prelude.{◌≡◌, ◌≤◌, IfOk, codes, map, option_copied};
ghost use Rattle.hdl_languages.specs.Preferred.{digit_at, elements_of, highest, is_language, language_called, part_at, parts_of, preferred, preferred_among, preferred_by, preferred_in, weight_in, weight_of};

use std::alloc::{AllocError, Global};

/// A language of pages.
#[derive(Clone, Copy, PartialEq, Eq)]
pub enum Language {
    English,
    German,
}

/// The weight of an element that says none, in thousandths.
const WHOLE: u32 = 1000;

impl Language {
    /// The language that an operator calls so: `en` or `de`.
    pub fn called(word: &str) -> Option<Language>
        ensures { result ≡ language_called word.now }
    {
        match word {
            "en" => Some(Language::English),
            "de" => Some(Language::German),
            _ => None,
        }
    }
}

/// The elements of a field, between its commas.
fn elements_of<'a>(alloc: Global, field: &'a str) -> Result<Vec<&'a str>, AllocError>
    ensures { IfOk result (λ elements. map (λ element. element.now) elements.items ≡ elements_of field.now) }
{
    field.split(',').collect(alloc)
}

/// The parts of an element, between its semicolons.
fn parts_of<'a>(alloc: Global, element: &'a str) -> Result<Vec<&'a str>, AllocError>
    ensures { IfOk result (λ parts. map (λ part. part.now) parts.items ≡ parts_of element.now) }
{
    element.split(';').collect(alloc)
}

/// The part of this place, without blanks at its ends; nothing if there is none.
fn part_at<'a>(parts: &[&'a str], place: usize) -> &'a str
    ensures { result.now ≡ part_at (map (λ part. part.now) parts.now) place }
{
    match parts.get(place) {
        Some(part) => part.trim(),
        None => "",
    }
}

/// The decimal digit of this place, and 0 if there is none.
fn digit_at(text: &[u8], place: usize) -> u32
    ensures value { result ≡ digit_at text.now place }
    ensures least { result ≤ 9 }
{
    match text.get(place) {
        Some(digit) if *digit >= b'0' && *digit <= b'9' => u32::from(*digit - b'0'),
        _ => 0,
    }
}

/// The weight that a part says, such as `q=0.7`, in thousandths.
fn weight_in(part: &[u8]) -> u32
    ensures { result ≡ weight_in part.now }
{
    if part.starts_with(b"q=") {
        digit_at(part, 2) * 1000
            + digit_at(part, 4) * 100
            + digit_at(part, 5) * 10
            + digit_at(part, 6)
    } else {
        WHOLE
    }
}

/// Whether a range of languages is of this one. The star, which is for all languages, counts for English.
fn is_language(language: Language, range: &str) -> bool
    ensures { result ≡ is_language language range.now }
{
    match language {
        Language::English => {
            range == "en" || range == "*" || range.as_bytes().starts_with(b"en-")
        }
        Language::German => range == "de" || range.as_bytes().starts_with(b"de-"),
    }
}

/// How much an element weighs for a language.
fn weight_of(alloc: Global, language: Language, element: &str) -> Result<u32, AllocError>
    ensures { IfOk result (λ weight. weight ≡ weight_of language element.now) }
{
    let parts = parts_of(alloc, element)?;
    if is_language(language, part_at(&parts, 0)) {
        Ok(weight_in(part_at(&parts, 1).as_bytes()))
    } else {
        Ok(0)
    }
}

/// The highest weight of these elements for a language.
fn weight_among(alloc: Global, language: Language, elements: &[&str]) -> Result<u32, AllocError>
    ensures { IfOk result (λ weight. weight ≡ highest language (map (λ element. element.now) elements.now)) }
{
    let mut most = 0;
    for element in elements {
        most = weight_of(alloc, language, element)?.max(most);
    }
    Ok(most)
}

/// The language that these elements prefer.
fn preferred_among(alloc: Global, elements: &[&str]) -> Result<Language, AllocError>
    ensures { IfOk result (λ language. language ≡ preferred_among (map (λ element. element.now) elements.now)) }
{
    let english = weight_among(alloc, Language::English, elements)?;
    let german = weight_among(alloc, Language::German, elements)?;
    Ok(if german > english {
        Language::German
    } else {
        Language::English
    })
}

fn preferred_in(alloc: Global, field: &str) -> Result<Language, AllocError>
    ensures { IfOk result (λ language. language ≡ preferred_in field.now) }
{
    let lower = field.to_ascii_lowercase(alloc)?;
    let elements = elements_of(alloc, &lower)?;
    preferred_among(alloc, &elements)
}

/// The language that a field of these octets prefers. One that is no text prefers English.
fn preferred_by(alloc: Global, field: &[u8]) -> Result<Language, AllocError>
    ensures { IfOk result (λ language. language ≡ preferred_by field.now) }
{
    match str::from_utf8(field) {
        Ok(text) => preferred_in(alloc, text),
        Err(_) => Ok(Language::English),
    }
}

/// The language that a request prefers by its field `Accept-Language`, if it has one: German if that weighs more there than English, and else
/// English.
pub fn preferred_language(alloc: Global, field: Option<&[u8]>) -> Result<Language, AllocError>
    ensures preferred { IfOk result (λ language. language ≡ preferred (option_copied field.entry)) }
{
    match field {
        Some(field) => preferred_by(alloc, field),
        None => Ok(Language::English),
    }
}
