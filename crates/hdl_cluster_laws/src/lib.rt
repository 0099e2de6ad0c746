//! Several servers over one table are one service: definitions, and laws of them.
//!
//! Each server has lanes of its own, and all of them have one table. A server changes it by a turn of its own, or takes over the table that another server's turn left.
//! `specs/Together.antt` says what each server did by itself, whenever it did it, if the changes are one list for all. [`laws`] says that these turns, in the order of the tables
//! on which they were taken, are a run of one service that has the lanes of all. So what hdl_laws says of every run holds of all servers together.
//!
//! `specs/Shared.antt` says what a server itself can record: its turns, and the tables that it took over. If these follow one list of changes, each a turn of one server, [`sharing`]
//! cuts them into such histories and keeps each server's turns in their order.
//!
//! The premises can be met: there are numbers for the lanes of all (`has_numbering`), and one service that has them (`has_whole`).
//!
//! It stands on the definitions of hdl_laws alone. There is no code here.
#![tactic(auto)]

pub mod laws;
pub mod sharing;
