//! How long others may keep an answer.

ghost use Rattle.std.specs.Prelude.{◌≡◌, option_copied};
ghost use Rattle.hdl_proxy.specs.CacheControl.{IsCacheControlOf, IsSoonest, comes_sooner, fresh_for, sooner};

use crate::answer::CacheControl;
use hdl_value::Value;

/// The most seconds that an answer is kept.
pub(crate) const DAY_SECONDS: u32 = 86_400;

/// How many seconds others may keep what is made of this value: its TTL, a day at most. None where the TTL is a moment, since this crate
/// has no clock.
fn fresh_for(value: &Value) -> u32
    ensures { result ≡ fresh_for value.now }
{
    let [kind, a, b, c, d] = value.ttl;
    if kind == 1 {
        return 0;
    }
    u32::from_be_bytes([a, b, c, d]).min(DAY_SECONDS)
}

fn comes_sooner(value: &Value, chosen: Option<&Value>) -> bool
    ensures { result ≡ comes_sooner value.now (option_copied chosen.entry) }
{
    match chosen {
        Some(first) => fresh_for(value) < fresh_for(first),
        None => true,
    }
}

/// One of the values that may be kept for the shortest time.
fn soonest(values: &[Value]) -> Option<&Value>
    ensures { IsSoonest values.now (option_copied result) }
{
    let mut chosen: Option<&Value> = None;
    for value in values {
        if comes_sooner(value, chosen) {
            chosen = Some(value);
        }
    }
    chosen
}

/// How long others may keep what two things are made of.
pub(crate) fn sooner(one: CacheControl, other: CacheControl) -> CacheControl
    ensures { result ≡ sooner one other }
{
    match (one, other) {
        (CacheControl::Seconds(one), CacheControl::Seconds(other)) => CacheControl::Seconds(one.min(
            other,
        )),
        _ => CacheControl::Never,
    }
}

/// How long others may keep what is made of these values: the least of their times, and not at all where there are none, since some may
/// come.
pub(crate) fn cache_control_of(values: &[Value]) -> CacheControl
    ensures { IsCacheControlOf values.now result }
{
    match soonest(values) {
        Some(value) => CacheControl::Seconds(fresh_for(value)),
        None => CacheControl::Never,
    }
}
