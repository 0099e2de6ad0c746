//! The publisher on whose lane a request came.

ghost use Rattle.std.specs.Prelude.{◌≡◌, Some, None, MatchOption};
ghost use Rattle.hdl_ops.specs.Views.{site_by, wire_by};

use hdl_tenants::Tenants;
use hdl_value::Wire;
use std::alloc::Global;

/// A publisher of the tenants text, by its place there. Requests on its lanes are decided by the prefixes that are hosted for
/// it, and hashed as these ask for it.
#[derive(Drop)]
pub struct Owner<'a> {
    pub alloc: Global,
    pub tenants: &'a Tenants,
    pub publisher: usize,
}

impl Owner<'_> {
    /// By whose layout its lanes speak of values.
    pub fn wire(&self) -> Wire
        ensures { result ≡ wire_by self.now }
    {
        self.tenants.wire(self.publisher)
    }

    /// The site information that its lanes tell: none by our profile's layout.
    pub fn site(&self) -> Option<&[u8]>
        ensures { MatchOption result (site_by self.now ≡ None) (λ octets. site_by self.now ≡ Some octets.now) }
    {
        match self.wire() {
            Wire::Profile => None,
            Wire::HandleNet => self.tenants.site(self.publisher),
        }
    }
}
