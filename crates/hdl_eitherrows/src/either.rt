//! The table.

ghost use Rattle.std.specs.Prelude.{◌≡◌};
ghost use Rattle.hdl_eitherrows.specs.Either.{said_of};

use hdl_limits::Octets;
use hdl_name::Name;
use hdl_rows::{Owed, Owing, Provenance, Refused, Rows};
use hdl_value::{Reference, Value};

/// A table of one of two kinds.
#[derive(Drop)]
pub enum EitherRows<A, B> {
    First(A),
    Second(B),
}

impl<A: Rows, B: Rows> Rows for EitherRows<A, B> {
    ghost content = { λ s. said_of A.content B.content s };

    ghost refused = { λ s. said_of A.refused B.refused s };

    ghost reads = { λ s. said_of A.reads B.reads s };

    fn exists(&mut self, name: &Name) -> Result<bool, Refused> {
        match self {
            EitherRows::First(rows) => rows.exists(name),
            EitherRows::Second(rows) => rows.exists(name),
        }
    }

    fn at(&mut self, reference: &Reference) -> Result<Option<Value>, Refused> {
        match self {
            EitherRows::First(rows) => rows.at(reference),
            EitherRows::Second(rows) => rows.at(reference),
        }
    }

    fn values(&mut self, name: &Name) -> Result<Vec<Value>, Refused> {
        match self {
            EitherRows::First(rows) => rows.values(name),
            EitherRows::Second(rows) => rows.values(name),
        }
    }

    fn look(&mut self, name: &Name) -> Result<Option<Vec<Value>>, Refused> {
        match self {
            EitherRows::First(rows) => rows.look(name),
            EitherRows::Second(rows) => rows.look(name),
        }
    }

    fn heads(&mut self, name: &Name) -> Result<Option<Vec<Value>>, Refused> {
        match self {
            EitherRows::First(rows) => rows.heads(name),
            EitherRows::Second(rows) => rows.heads(name),
        }
    }

    fn names(&mut self, authority: &[u8]) -> Result<Vec<Octets>, Refused> {
        match self {
            EitherRows::First(rows) => rows.names(authority),
            EitherRows::Second(rows) => rows.names(authority),
        }
    }

    fn create(
        &mut self,
        name: &Name,
        values: &[Value],
        provenance: &Provenance<'_>,
    ) -> Result<(), Refused> {
        match self {
            EitherRows::First(rows) => rows.create(name, values, provenance),
            EitherRows::Second(rows) => rows.create(name, values, provenance),
        }
    }

    fn add(
        &mut self,
        name: &Name,
        values: &[Value],
        provenance: &Provenance<'_>,
    ) -> Result<(), Refused> {
        match self {
            EitherRows::First(rows) => rows.add(name, values, provenance),
            EitherRows::Second(rows) => rows.add(name, values, provenance),
        }
    }

    fn modify(
        &mut self,
        name: &Name,
        values: &[Value],
        provenance: &Provenance<'_>,
    ) -> Result<(), Refused> {
        match self {
            EitherRows::First(rows) => rows.modify(name, values, provenance),
            EitherRows::Second(rows) => rows.modify(name, values, provenance),
        }
    }

    fn remove(
        &mut self,
        name: &Name,
        indexes: &[u32],
        provenance: &Provenance<'_>,
    ) -> Result<(), Refused> {
        match self {
            EitherRows::First(rows) => rows.remove(name, indexes, provenance),
            EitherRows::Second(rows) => rows.remove(name, indexes, provenance),
        }
    }

    fn delete(&mut self, name: &Name, provenance: &Provenance<'_>) -> Result<(), Refused> {
        match self {
            EitherRows::First(rows) => rows.delete(name, provenance),
            EitherRows::Second(rows) => rows.delete(name, provenance),
        }
    }

    fn refusals(&self) -> u64 {
        match self {
            EitherRows::First(rows) => rows.refusals(),
            EitherRows::Second(rows) => rows.refusals(),
        }
    }

    fn reads(&self) -> u64 {
        match self {
            EitherRows::First(rows) => rows.reads(),
            EitherRows::Second(rows) => rows.reads(),
        }
    }
}

impl<A: Owing, B: Owing> Owing for EitherRows<A, B> {
    ghost debt = { λ s. said_of A.debt B.debt s };

    fn hands_over(&self) -> bool {
        match self {
            EitherRows::First(rows) => rows.hands_over(),
            EitherRows::Second(rows) => rows.hands_over(),
        }
    }

    fn owed(&self) -> Owed {
        match self {
            EitherRows::First(rows) => rows.owed(),
            EitherRows::Second(rows) => rows.owed(),
        }
    }

    fn set_may_write(&mut self, may_write: bool) {
        match self {
            EitherRows::First(rows) => rows.set_may_write(may_write),
            EitherRows::Second(rows) => rows.set_may_write(may_write),
        }
    }
}
