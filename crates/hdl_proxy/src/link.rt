//! Where a page or a Location may lead.

ghost use Rattle.std.specs.Prelude.{◌≡◌, IfOk, All, string_bytes};
ghost use Rattle.hdl_proxy.specs.Link.{IsLink, IsWayTo, path_to, path_to_form, path_to_json, path_to_values};
ghost use Rattle.hdl_proxy.specs.Url.{IsGraphic};

use crate::url::{address, is_followed, path_of};
use hdl_name::Name;
use std::alloc::{AllocError, Global};
use std::marker::Model;

/// What a link leads to: the address of a URL that is followed, a handle's own path, its form, or its own values, as a page or as JSON. There is no other
/// way to make one, so no text of a value or of a request leads anywhere by itself.
///
/// Contracts see its octets.
#[derive(Drop)]
pub(crate) struct Link {
    text: String,
}

impl Model for Link {
    ghost use Rattle.std.specs.Prelude.{List, ℕ, string_bytes};
    ghost use Rattle.hdl_proxy.specs.Link.{IsLink};

    ghost Value = { List ℕ };

    ghost view = { λ a. string_bytes a.text };

    ghost invariant = { λ a. IsLink (string_bytes a.text) };
}

impl Link {
    /// The way to a URL. None just where that isn't followed.
    pub(crate) fn of_url(alloc: Global, url: &[u8]) -> Result<Option<Link>, AllocError>
        ensures { IfOk result (IsWayTo url.now) }
    {
        if !is_followed(url) {
            return Ok(None);
        }
        let text = address(alloc, url)?;
        Ok(Some(Link { text }))
    }

    /// The way to a handle's own address.
    pub(crate) fn of_name(alloc: Global, name: &Name) -> Result<Link, AllocError>
        ensures { IfOk result (λ to. to ≡ path_to name.now) }
    {
        let text = path_of(alloc, name.sent())?;
        Ok(Link { text })
    }

    /// The way to the page of a handle's own values, from which no alias leads on.
    pub(crate) fn to_values(alloc: Global, name: &Name) -> Result<Link, AllocError>
        ensures { IfOk result (λ to. to ≡ path_to_values name.now) }
    {
        let mut text = path_of(alloc, name.sent())?;
        text.push_str("?noredirect")?;
        Ok(Link { text })
    }

    /// The way to the form by which a handle is changed.
    pub(crate) fn to_form(alloc: Global, name: &Name) -> Result<Link, AllocError>
        ensures { IfOk result (λ to. to ≡ path_to_form name.now) }
    {
        let mut text = path_of(alloc, name.sent())?;
        text.push_str("?edit")?;
        Ok(Link { text })
    }

    /// The way to a handle's own values as JSON.
    pub(crate) fn to_json(alloc: Global, name: &Name) -> Result<Link, AllocError>
        ensures { IfOk result (λ to. to ≡ path_to_json name.now) }
    {
        let path = path_of(alloc, name.sent())?;
        let mut text = String::from_str(alloc, "/api/handles")?;
        text.push_str(&path)?;
        Ok(Link { text })
    }

    /// The link's octets, as they are in a Location and in a page.
    pub(crate) fn octets(&self) -> &[u8]
        ensures octets { result.now ≡ self.now }
        ensures link { IsLink self.now }
    {
        self.text.as_bytes()
    }

    /// The link's text, for a Location.
    pub(crate) fn into_text(self) -> String
        ensures octets { string_bytes result ≡ self }
        ensures graphic { All IsGraphic (string_bytes result) }
    {
        let Link { text } = self;
        text
    }
}
