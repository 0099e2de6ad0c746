//! Laws over the definitions, each the contract of a function without a body.

ghost use Rattle.hdl_proxy.specs.Escape.{TextIsInert};

/// Text that is escaped begins no markup and ends no attribute, whatever it is.
pub fn text_is_inert()
    ensures { TextIsInert }
{}
