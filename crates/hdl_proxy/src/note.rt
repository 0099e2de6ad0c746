//! What a page says above a handle's values.

ghost use Rattle.std.specs.Prelude.{◌≡◌, ◌++◌, OnOk};
ghost use Rattle.hdl_proxy.specs.Note.{note_part, told_part};

use crate::page::Page;
use hdl_languages::{Language, Phrase};
use std::alloc::AllocError;

/// Why a handle's values are shown, where its address leads nowhere.
#[derive(Clone, Copy, PartialEq, Eq)]
pub(crate) enum Note {
    /// It leads on, or its values were asked for.
    Nothing,
    /// It has no URL.
    NoUrl,
    /// Its URL isn't one to be followed.
    UrlUnfollowed,
    /// Its locations can't be read.
    Unread,
    /// The location that was chosen isn't one to be followed.
    Unfollowed,
}

fn put_told(page: &mut Page, language: Language, told: Phrase) -> Result<(), AllocError>
    ensures { OnOk result (page.new.octets.items ≡ page.old.octets.items ++ told_part language told) }
{
    page.phrase(language, "<p class=\"note\">", told, "</p>\n")
}

/// Adds the note.
pub(crate) fn put_note(page: &mut Page, language: Language, note: Note) -> Result<(), AllocError>
    ensures { OnOk result (page.new.octets.items ≡ page.old.octets.items ++ note_part language note) }
{
    match note {
        Note::Nothing => Ok(()),
        Note::NoUrl => put_told(page, language, Phrase::NoUrl),
        Note::UrlUnfollowed => put_told(page, language, Phrase::UrlUnfollowed),
        Note::Unread => put_told(page, language, Phrase::LocationsUnread),
        Note::Unfollowed => put_told(page, language, Phrase::LocationUnfollowed),
    }
}
