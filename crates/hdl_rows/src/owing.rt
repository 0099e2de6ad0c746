//! The write that a table owes.

ghost use Rattle.std.specs.Prelude.{◌≡◌};
ghost use Rattle.hdl_rows.specs.Debt.{Debt, nothing, is_owed};

use crate::plain::PlainRows;
use crate::rows::Rows;

/// What a table owes: a write that it handed over to another thread, and whose call it refuses until the write has
/// ended.
#[derive(Clone, Copy, Debug, PartialEq, Eq, Drop)]
pub enum Owed {
    /// No write.
    Nothing,
    /// A write that is still being made.
    UnderWay,
    /// A write that has ended. The same call, made again, claims it.
    Ended,
}

/// A table that may hand a write over to another thread, one at a time. It refuses the write's call and owes it the
/// write, until the same call is made again and claims it.
pub trait Owing: Rows {
    /// Whether it hands writes over, and whether it owes one.
    ghost debt: { Self → Debt };

    /// Whether it hands writes over. Otherwise each call makes its write itself.
    fn hands_over(&self) -> bool
        ensures { result ≡ (debt self.now).hands_over };

    /// What it owes.
    fn owed(&self) -> Owed
        ensures { is_owed result ≡ (debt self.now).owes };

    /// Sets whether the calls that follow may hand a write over. If not, such a write is refused, and nothing is owed
    /// for it.
    fn set_may_write(&mut self, may_write: bool)
        ensures unchanged { Self.content self.new ≡ Self.content self.old }
        ensures count { Self.refused self.new ≡ Self.refused self.old }
        ensures reads { Self.reads self.new ≡ Self.reads self.old }
        ensures debt { debt self.new ≡ debt self.old };
}

/// A table whose calls make their writes themselves. It never owes one.
pub trait Synchronous: Rows {}

impl Synchronous for PlainRows {}

impl Owing for PlainRows {
    ghost debt = { λ _. nothing };

    fn hands_over(&self) -> bool {
        false
    }

    fn owed(&self) -> Owed {
        Owed::Nothing
    }

    fn set_may_write(&mut self, _may_write: bool) {}
}
