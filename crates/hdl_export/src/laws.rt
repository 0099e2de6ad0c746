//! Laws over what is written, each the contract of a function without a body.

ghost use Rattle.hdl_export.specs.Laws.{LinesAreRead, ValueLineIsRead, RegisterIsRead, RowsAreOnly, PublisherMoves, MovedIsAnsweredAlike};

/// Lines without a line feed are read back as they were written.
pub fn lines_are_read()
    ensures { LinesAreRead }
{}

/// The line of a row says this row, and nothing else.
pub fn value_line_is_read()
    ensures { ValueLineIsRead }
{}

/// After lines that say publishers, prefixes and site information, the lines of rows that a text can say are accepted, and say these rows in this order.
pub fn register_is_read()
    ensures { RegisterIsRead }
{}

/// A text that has the lines of an accepted text that say no value, and after them lines of rows, says these rows and nothing else, if it is
/// accepted.
pub fn rows_are_only()
    ensures { RowsAreOnly }
{}

/// The service that opens with a publisher's export has of it, and at its cover, what the service has that the table was exported of; and the
/// cover is closed there.
pub fn publisher_moves()
    ensures { PublisherMoves }
{}

/// A publisher that moved is answered as it was, as long as no other publisher changes what its answers rest on.
pub fn moved_is_answered_alike()
    ensures { MovedIsAnsweredAlike }
{}
