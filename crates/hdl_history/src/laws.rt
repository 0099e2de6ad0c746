//! A law over lines, the contract of a function without a body.

ghost use Rattle.hdl_history.specs.Laws.{WrittenIsRead};

/// The line of every entry says that entry, if the lines of its values have no tab and don't begin with `!`.
pub fn written_is_read()
    ensures { WrittenIsRead }
{}
