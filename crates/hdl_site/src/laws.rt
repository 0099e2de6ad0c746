//! Laws over sites, each the contract of a function without a body.

ghost use Rattle.std.specs.Prelude.{◌≡◌};
ghost use Rattle.hdl_value.specs.Reading.{IsCodec};
ghost use Rattle.hdl_site.specs.Info.{site_at, site_octets, SiteFits};
ghost use Rattle.hdl_site.specs.Example.{example_site, example_octets};

/// What the reader of sites reads is written there, and what is written it reads.
pub fn site_read_as_spelt()
    ensures { IsCodec site_at site_octets SiteFits }
{}

/// The octets of one site, as they are laid out by hand.
pub fn example_is_laid_out()
    ensures { site_octets example_site ≡ example_octets }
{}
