//! Whose write comes next: the lanes that wait, in their order.

use crate::assertion::same;
use hdl_write_queue::WriteQueue;
use std::test::Fail;

/// Two lanes whose clients write: the one that began is asked again once its write has ended, and the other one behind it.
#[test]
fn lanes_write_in_turn(rt: HostRuntime) -> Result<(), Fail> {
    let mut queue = WriteQueue::with_capacity(rt.alloc(), 2)?;
    assert!(&rt; queue.is_turn(0) && queue.is_asked(0, false));
    let waits = queue.stays(0, true) && !queue.is_asked(0, true);
    same(&rt, "the first waits", waits, true);
    let comes = queue.is_asked(1, true) && !queue.is_turn(1);
    same(&rt, "the second comes", comes, true);
    let waits = queue.stays(1, true) && !queue.is_asked(1, true);
    same(&rt, "the second waits", waits, true);
    let is_first = queue.is_asked(0, false) && queue.is_turn(0) && !queue.is_asked(1, false);
    same(&rt, "the first is asked", is_first, true);
    queue.note_outcome(0);
    let is_second = queue.is_asked(1, false) && queue.is_turn(1);
    same(&rt, "the second is asked", is_second, true);
    Ok(())
}

/// An event whose write is owed is asked again, and stays, whatever it is busy for; a third lane's waits behind the others.
#[test]
fn owed_write_is_asked_again(rt: HostRuntime) -> Result<(), Fail> {
    let mut queue = WriteQueue::with_capacity(rt.alloc(), 3)?;
    let wait = queue.is_asked(0, false) && queue.stays(0, true) && queue.stays(1, true);
    same(&rt, "both wait", wait, true);
    let is_again = queue.is_asked(0, false)
        && queue.stays(0, true)
        && queue.is_asked(0, false)
        && !queue.is_asked(1, false);
    same(&rt, "the first is asked again", is_again, true);
    same(&rt, "the first stays", queue.stays(0, false), false);
    queue.note_outcome(0);
    let is_last = queue.is_asked(1, false)
        && queue.is_asked(2, false)
        && queue.stays(2, false)
        && !queue.is_asked(2, false);
    same(&rt, "the third waits", is_last, true);
    Ok(())
}

/// An event that was refused for another reason is answered, and leaves no lane waiting.
#[test]
fn refused_for_good_waits_for_nothing(rt: HostRuntime) -> Result<(), Fail> {
    let mut queue = WriteQueue::new(rt.alloc());
    let is_free = !queue.stays(0, false) && queue.is_asked(0, false);
    same(&rt, "the first is asked", is_free, true);
    let is_turn = queue.is_asked(1, false) && queue.is_turn(1);
    same(&rt, "the second is asked", is_turn, true);
    Ok(())
}
