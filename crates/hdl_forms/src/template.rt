//! Pages of templates, in whose holes text stands escaped.

ghost use Rattle.std.specs.Prelude.{◌≡◌, ◌∷◌, ◌++◌, [], IfOk, decimal, map};
ghost use Rattle.hdl_forms.specs.Template.{filled, markup_of, text_at, IsMade};

use crate::markup::Template;
use hdl_limits::Octets;
use hdl_proxy::put_escaped;
use std::alloc::{AllocError, Global};
use std::marker::Model;

/// What stands for a text in a template.
const HOLE: u8 = b'$';

/// The texts for the holes of a template, in their order.
#[derive(Drop)]
pub(crate) struct Texts {
    alloc: Global,
    list: Vec<Octets>,
}

impl Texts {
    pub(crate) fn new(alloc: Global) -> Texts
        ensures { result.list.items ≡ [] }
    {
        Texts {
            alloc,
            list: Vec::new(alloc),
        }
    }

    pub(crate) fn of(alloc: Global, texts: &[&[u8]]) -> Result<Texts, AllocError>
        ensures { IfOk result (λ made. made.list.items ≡ map (λ text. text.now) texts.now) }
    {
        let mut list = Vec::new(alloc);
        for text in texts {
            list.push(Octets::new(Vec::from_slice(alloc, text)?))?;
        }
        Ok(Texts { alloc, list })
    }

    /// These texts and one more.
    pub(crate) fn and(self, text: &[u8]) -> Result<Texts, AllocError>
        ensures { IfOk result (λ texts. texts.list.items ≡ self.list.items ++ text.now ∷ []) }
    {
        let Texts { alloc, mut list } = self;
        list.push(Octets::new(Vec::from_slice(alloc, text)?))?;
        Ok(Texts { alloc, list })
    }

    /// These texts and a number in decimal.
    pub(crate) fn and_number(self, number: u32) -> Result<Texts, AllocError>
        ensures { IfOk result (λ texts. texts.list.items ≡ self.list.items ++ decimal number ∷ []) }
    {
        let digits = format!(in self.alloc; "{number}")?;
        self.and(digits.as_bytes())
    }
}

/// The text of this place, and an empty one behind the last.
fn text_at(texts: &[Octets], place: usize) -> &[u8]
    ensures { result.now ≡ text_at texts.now place }
{
    match texts.get(place) {
        Some(text) => text.as_slice(),
        None => b"",
    }
}

/// A template with these texts in its holes, in their order, each escaped. A hole for which no text is left stays empty.
fn fill(alloc: Global, template: &'static str, texts: &[Octets]) -> Result<Vec<u8>, AllocError>
    ensures { IfOk result (λ page. page.items ≡ filled template.now texts.now) }
{
    let mut page = Vec::new(alloc);
    let mut place = 0;
    for octet in template.as_bytes() {
        if *octet == HOLE {
            put_escaped(&mut page, alloc, text_at(texts, place))?;
            place += 1;
        } else {
            page.push(*octet)?;
        }
    }
    Ok(page)
}

/// A page that grows: templates of this crate with texts in their holes, and nothing else.
///
/// Contracts see its octets.
#[derive(Drop)]
pub(crate) struct FormPage {
    alloc: Global,
    octets: Vec<u8>,
}

impl Model for FormPage {
    ghost use Rattle.std.specs.Prelude.{List, ℕ};
    ghost use Rattle.hdl_forms.specs.Template.{IsMade};

    ghost Value = { List ℕ };

    ghost view = { λ p. p.octets.items };

    ghost invariant = { λ p. IsMade p.octets.items };
}

impl FormPage {
    pub(crate) fn new(alloc: Global) -> FormPage
        ensures { result ≡ [] }
    {
        FormPage {
            alloc,
            octets: Vec::new(alloc),
        }
    }

    /// The page with this template and these texts at its end.
    pub(crate) fn with(self, template: Template, texts: Texts) -> Result<FormPage, AllocError>
        ensures { IfOk result (λ page. page ≡ self ++ filled (markup_of template) texts.list.items) }
    {
        let FormPage { alloc, mut octets } = self;
        let part = fill(alloc, template.markup(), &texts.list)?;
        octets.extend_from_slice(&part)?;
        Ok(FormPage { alloc, octets })
    }

    /// The page with another part at its end.
    pub(crate) fn join(self, part: FormPage) -> Result<FormPage, AllocError>
        ensures { IfOk result (λ page. page ≡ self ++ part) }
    {
        let FormPage { alloc, mut octets } = self;
        let FormPage { octets: part, .. } = part;
        octets.extend_from_slice(&part)?;
        Ok(FormPage { alloc, octets })
    }

    /// The octets so far.
    pub(crate) fn into_octets(self) -> Vec<u8>
        ensures octets { result.items ≡ self }
        ensures made { IsMade result.items }
    {
        let FormPage { octets, .. } = self;
        octets
    }
}
