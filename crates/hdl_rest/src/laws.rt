//! Laws over the definitions, each the contract of a function without a body.

ghost use Rattle.hdl_rest.specs.Laws.{WrittenIsRead, NothingIsLost};

/// The JSON of a value that JSON can say all of is read as that value, but for its timestamp: so a record that was read with a key and is
/// put back is the same.
pub fn written_is_read()
    ensures { WrittenIsRead }
{}

/// Whatever is there, the requests of a change write each given value once, and remove none that is given.
pub fn nothing_is_lost()
    ensures { NothingIsLost }
{}
