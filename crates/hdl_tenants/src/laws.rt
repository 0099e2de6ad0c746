//! Laws over tenants texts, each the contract of a function without a body.

ghost use Rattle.hdl_tenants.specs.Laws.{OneRegister, AcceptedHasNoFault, OneFirstFault, LanesByRange, RootIsNobodys, HostedAsGiven, HashedAsGiven, SitedAsGiven, OpeningIsHosted};

/// An accepted text says one thing.
pub fn one_register()
    ensures { OneRegister }
{}

/// No text is both accepted and refused, want of memory aside.
pub fn accepted_has_no_fault()
    ensures { AcceptedHasNoFault }
{}

/// A text has one first faulty line at most and one fault there, want of memory aside.
pub fn one_first_fault()
    ensures { OneFirstFault }
{}

/// Lanes are numbered from 0, publisher after publisher.
pub fn lanes_by_range()
    ensures { LanesByRange }
{}

/// The prefix `0.na` is hosted for nobody.
pub fn root_is_nobodys()
    ensures { RootIsNobodys }
{}

/// A prefix is hosted for a publisher just where a line gives it so.
pub fn hosted_as_given()
    ensures { HostedAsGiven }
{}

/// The hash function of a prefix on a publisher's lanes is the one that its line gives.
pub fn hashed_as_given()
    ensures { HashedAsGiven }
{}

/// The site information of a publisher is the octets that its line gives.
pub fn sited_as_given()
    ensures { SitedAsGiven }
{}

/// Each handle to open with has a prefix that is hosted for a publisher.
pub fn opening_is_hosted()
    ensures { OpeningIsHosted }
{}
