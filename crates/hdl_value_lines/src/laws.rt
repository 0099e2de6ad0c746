//! Laws over lines, each the contract of a function without a body.

ghost use Rattle.hdl_value_lines.specs.Laws.{HiddenIsRefused, PrintedIsLine, WrittenIsPrinted, WrittenIsRead};

/// The line of every value whose parts fit their fields says that value, but for its timestamp: whatever its type, its data, its TTL,
/// its permissions and its references.
pub fn written_is_read()
    ensures { WrittenIsRead }
{}

/// What is printed of octets is UTF-8 without a control character.
pub fn printed_is_line()
    ensures { PrintedIsLine }
{}

/// The line of a value is printed as it is.
pub fn written_is_printed()
    ensures { WrittenIsPrinted }
{}

/// The line of a key whose data is hidden says no value, and is printed as it is.
pub fn hidden_is_refused()
    ensures { HiddenIsRefused }
{}
