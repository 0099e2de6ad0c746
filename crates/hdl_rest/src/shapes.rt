//! Which members the objects of a record may have: no other one is passed over.

ghost use Rattle.std.specs.Prelude.{◌≡◌, map, option_map};
ghost use Rattle.serde_json.specs.View.{members_view, view};
ghost use Rattle.hdl_rest.specs.Shapes.{all_fit, data_fits, entry_fits, fits, has, list_fits, members_fit, told_fits};

use serde_json::{Map, Value as Json};

/// An object of a record.
#[derive(Clone, Copy, PartialEq, Eq)]
pub(crate) enum Shape {
    /// The body: its values, and what the answer to a reading has besides.
    Body,
    Entry,
    Data,
    Admin,
    Reference,
}

impl Shape {
    /// Whether it may have a member of this name.
    fn has(self, key: &str) -> bool
        ensures { result ≡ has self key.now }
    {
        match self {
            Shape::Body => key == "values" || key == "handle" || key == "responseCode",
            Shape::Entry => {
                key == "index"
                    || key == "type"
                    || key == "data"
                    || key == "ttl"
                    || key == "permissions"
                    || key == "timestamp"
            }
            Shape::Data => key == "format" || key == "value",
            Shape::Admin => key == "handle" || key == "index" || key == "permissions",
            Shape::Reference => key == "handle" || key == "index",
        }
    }

    fn has_all(self, members: &Map<String, Json>) -> bool
        ensures { result ≡ members_fit self (members_view members.now.entries) }
    {
        for (key, _) in members.iter() {
            if !self.has(key.as_str()) {
                return false;
            }
        }
        true
    }

    /// Whether JSON that is an object has no other members.
    pub(crate) fn fits(self, json: &Json) -> bool
        ensures { result ≡ fits self (view json.now) }
    {
        match json.as_object() {
            Some(members) => self.has_all(members),
            None => true,
        }
    }
}

/// Whether each of these is a reference and nothing else, as far as it is an object.
fn list_fits(list: &[Json]) -> bool
    ensures { result ≡ list_fits (map view list.now) }
{
    for json in list {
        if !Shape::Reference.fits(json) {
            return false;
        }
    }
    true
}

/// The same of what a format tells: an administrator, or a list.
#[tactic(auto, using(crate::proofs::Items::each_items_of))]
fn told_fits(json: &Json) -> bool
    ensures { result ≡ told_fits (view json.now) }
{
    match json.as_array() {
        Some(list) => list_fits(list),
        None => Shape::Admin.fits(json),
    }
}

fn data_fits(json: &Json) -> bool
    ensures { result ≡ data_fits (view json.now) }
{
    if !Shape::Data.fits(json) {
        return false;
    }
    match json.get("value") {
        Some(told) => told_fits(told),
        None => true,
    }
}

/// The same of a value, and of its data.
pub(crate) fn entry_fits(json: &Json) -> bool
    ensures { result ≡ entry_fits (view json.now) }
{
    if !Shape::Entry.fits(json) {
        return false;
    }
    match json.get("data") {
        Some(data) => data_fits(data),
        None => true,
    }
}

pub(crate) fn all_fit(list: &[Json]) -> bool
    ensures { result ≡ all_fit (map view list.now) }
{
    for json in list {
        if !entry_fits(json) {
            return false;
        }
    }
    true
}
