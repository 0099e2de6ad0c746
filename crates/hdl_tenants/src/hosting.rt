//! Whether a prefix is hosted for a publisher, and by which hash function.

ghost use Rattle.std.specs.Prelude.{◌≡◌};
ghost use Rattle.hdl_name.specs.Name.{prefix};
ghost use Rattle.hdl_tenants.specs.Register as register;

use crate::text::Tenants;
use hdl_auth::algorithm::Algorithm;
use hdl_name::Name;

impl Tenants {
    /// Whether the name's prefix, in canonical form, is hosted for the publisher at this place.
    pub fn hosts(&self, publisher: usize, name: &Name) -> bool
        ensures { result ≡ register.hosts self.now publisher (prefix name.now) }
    {
        self.hosting(publisher, name).is_some()
    }

    /// The hash function of the name's prefix on the lanes of the publisher at this place: SHA-1 if the prefix isn't hosted for it.
    pub fn algorithm(&self, publisher: usize, name: &Name) -> Algorithm
        ensures { result ≡ register.algorithm self.now publisher (prefix name.now) }
    {
        self.hosting(publisher, name).unwrap_or(Algorithm::Sha1)
    }
}
