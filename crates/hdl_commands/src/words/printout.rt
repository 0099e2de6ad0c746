//! Lines that grow.

ghost use Rattle.std.specs.Prelude.{◌≡◌, [], OnOk};
ghost use Rattle.hdl_commands.specs.Printout.{with_line};

use hdl_value_lines::printed_octets;
use std::alloc::{AllocError, Global};
use std::marker::Model;

/// Lines in words, and whether the data of keys is shown in them. Contracts see their text.
#[derive(Drop)]
pub struct Printout {
    pub(crate) alloc: Global,
    pub(crate) shows_keys: bool,
    text: String,
}

impl Model for Printout {
    ghost use Rattle.std.specs.String.{string_bytes};
    ghost use Rattle.hdl_commands.specs.Printout.{PageText};

    ghost Value = { PageText };

    ghost view = { λ p. record { shows_keys = p.shows_keys; text = string_bytes p.text } };
}

impl Printout {
    /// A printout without a line.
    pub fn new(alloc: Global, shows_keys: bool) -> Printout
        ensures { result ≡ record { shows_keys = shows_keys; text = [] } }
    {
        Printout {
            alloc,
            shows_keys,
            text: String::new(alloc),
        }
    }

    /// The lines so far.
    pub fn as_str(&self) -> &str
        ensures { result.now ≡ self.now.text }
    {
        &self.text
    }

    /// Adds a line as `hdl_value_lines` prints it: without a control character.
    pub fn push(&mut self, line: &str) -> Result<(), AllocError>
        ensures { OnOk result (self.new ≡ with_line self.old line.now) }
    {
        self.push_octets(line.as_bytes())
    }

    /// Adds a line of octets: where they are no text, of their digits.
    pub(crate) fn push_octets(&mut self, line: &[u8]) -> Result<(), AllocError>
        ensures { OnOk result (self.new ≡ with_line self.old line.now) }
    {
        let line = printed_octets(self.alloc, line)?;
        self.text.push_str(&line)?;
        self.text.push('\n')
    }
}
