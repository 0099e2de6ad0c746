//! Which handles were changed since they were asked for.

ghost use Rattle.std.specs.Prelude.{◌≡◌, ◌<◌, slice_index, slice_get, option_copied};
ghost use Rattle.hdl_routes.specs.Changes.{is_count, is_current, bucket_of};

/// How many counts of changes there are. One counts for all handles that come to its place, so a change may forget what was kept of another handle too.
pub(crate) const BUCKETS: usize = 1024;

/// How often handles of a place had been changed when one of them was asked for.
#[derive(Clone, Copy, PartialEq, Eq)]
pub struct ChangeMark {
    pub(crate) place: usize,
    pub(crate) count: u64,
}

/// The place of the count for this handle.
pub(crate) fn bucket_of(handle: &[u8]) -> usize
    ensures place { result ≡ bucket_of handle.now }
    ensures within { result < BUCKETS }
{
    let mut place = 0;
    for octet in handle {
        place = (place * 31 + usize::from(*octet)) % BUCKETS;
    }
    place
}

/// Whether this is the count, if it is there.
fn is_count(found: Option<&u64>, count: u64) -> bool
    ensures { result ≡ is_count count (option_copied found.entry) }
{
    match found {
        Some(found) => *found == count,
        None => false,
    }
}

/// Whether no handle of the mark's place was changed since.
pub(crate) fn is_current(counts: &[u64], mark: ChangeMark) -> bool
    ensures { result ≡ is_current counts.now mark }
{
    is_count(counts.get(mark.place), mark.count)
}
