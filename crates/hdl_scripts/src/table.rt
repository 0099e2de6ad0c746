//! The table of every service here.

ghost use Rattle.std.specs.Prelude.{◌≡◌, IfSome};
ghost use Rattle.hdl_rows.specs.Table.{no_rows};

use hdl_eitherrows::EitherRows;
use hdl_rows::{Fuse, PlainRows, Rows};
use hdl_sqlrows::SqlRows;
use std::alloc::Global;

/// What keeps a table.
#[derive(Clone, Copy)]
pub enum Table {
    Memory,
    Sql,
}

/// A table of which some calls may be refused. It is one type, so that the program has one machine.
pub type TableRows = Fuse<EitherRows<PlainRows, SqlRows>>;

/// An empty table whose nth call is refused, none with 0. `None`: the table in SQL refused.
pub fn empty_rows(alloc: Global, table: Table, nth: u64) -> Option<TableRows>
    ensures empty { IfSome result (λ rows. ⟦<TableRows as Rows>⟧.content rows ≡ no_rows) }
{
    let rows = match table {
        Table::Memory => EitherRows::First(PlainRows::new(alloc)),
        Table::Sql => EitherRows::Second(SqlRows::new(alloc).ok()?),
    };
    Some(Fuse::new(rows, nth, nth))
}
