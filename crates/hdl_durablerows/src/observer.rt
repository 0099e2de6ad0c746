//! Who is told that a table takes no more writes.

ghost use Rattle.std.specs.Prelude.{◌≡◌, ℕ, ◌+◌, min};
ghost use Rattle.hdl_rows.specs.Table.{most};
ghost use Rattle.hdl_durablerows.specs.Durable.{shut_notices_after};

/// Who is told, once, that the table takes no more writes.
pub trait ShutObserver {
    /// How many times it was told so, up to the greatest `u64`.
    ghost shut_notices: { Self → ℕ };

    /// Nobody can tell whether the file has a write.
    fn note_shut(&mut self)
        ensures { shut_notices self.new ≡ min (shut_notices self.old + 1) most };
}

/// Rings where the table has become shut.
pub(crate) fn note_if_shut<A: ShutObserver>(observer: &mut A, was_shut: bool, is_shut: bool)
    ensures { A.shut_notices observer.new ≡ shut_notices_after was_shut is_shut (A.shut_notices observer.old) }
{
    if is_shut && !was_shut {
        observer.note_shut();
    }
}
