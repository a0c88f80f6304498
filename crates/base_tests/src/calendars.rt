//! Numbers by the second in which they are due or are woken, and persons by the second in which an activity or a flight of theirs ends.

ghost use Rattle.std.specs.Prelude.{◌≡◌, length};

use agents::Agents;
use calendar::{Calendar, Wakes, within};
use std::alloc::{AllocError, Global};

/// Numbers 7 and 3 are due in second 5, in this order, and number 1 in second 2.
fn three_numbers(alloc: Global) -> Calendar {
    let mut calendar = Calendar::new(alloc);
    let _ = calendar.add(5, 7);
    let _ = calendar.add(2, 1);
    let _ = calendar.add(5, 3);
    calendar
}

/// Whether just these numbers are due in a second. They are taken out.
fn takes(calendar: &mut Calendar, second: u32, numbers: &[u32]) -> bool {
    let Ok(due) = calendar.take(second) else {
        return false;
    };
    due.as_slice() == numbers
}

/// Numbers are taken in the order in which they came, and once.
fn are_due_once(alloc: Global) -> bool {
    let mut calendar = three_numbers(alloc);
    takes(&mut calendar, 4, &[])
        && takes(&mut calendar, 2, &[1])
        && takes(&mut calendar, 5, &[7, 3])
        && takes(&mut calendar, 5, &[])
        && takes(&mut calendar, 6, &[])
}

#[test]
fn numbers_are_due_in_their_seconds(rt: HostRuntime) {
    assert!(rt; are_due_once(rt.alloc()));
}

/// Numbers 1 and 2 are due in seconds 31 and 30, number 3 in second 32: the first two in seconds of one block, of which 31 is the last.
fn numbers_of_two_blocks(alloc: Global) -> Calendar {
    let mut calendar = Calendar::new(alloc);
    let _ = calendar.add(31, 1);
    let _ = calendar.add(32, 3);
    let _ = calendar.add(30, 2);
    calendar
}

/// Those of an earlier second stay due when the last one of a block was taken, and a number may come to a block of which nobody was left.
fn stay_due_in_blocks(alloc: Global) -> bool {
    let mut calendar = numbers_of_two_blocks(alloc);
    takes(&mut calendar, 31, &[1])
        && takes(&mut calendar, 30, &[2])
        && takes(&mut calendar, 31, &[])
        && calendar.add(31, 4).is_ok()
        && takes(&mut calendar, 32, &[3])
        && takes(&mut calendar, 31, &[4])
        && takes(&mut calendar, 63, &[])
        && takes(&mut calendar, 64, &[])
}

#[test]
fn numbers_stay_due_in_blocks(rt: HostRuntime) {
    assert!(rt; stay_due_in_blocks(rt.alloc()));
}

/// Numbers 1 to 3 are due in second 5 and number 4 in second 6; when those of second 5 were taken, numbers 5 to 9 come to seconds 6 and 40
/// in turn: three of them find the place of one that was taken, and the others find none.
fn come_later(calendar: &mut Calendar) -> Result<(), AllocError> {
    calendar.add(6, 5)?;
    calendar.add(40, 6)?;
    calendar.add(6, 7)?;
    calendar.add(40, 8)?;
    calendar.add(6, 9)
}

/// Those who come when others were taken are due in the order in which they came, and so are those who came before.
fn are_due_again(alloc: Global) -> bool {
    let mut calendar = Calendar::new(alloc);
    calendar.add(5, 1).is_ok()
        && calendar.add(5, 2).is_ok()
        && calendar.add(6, 4).is_ok()
        && calendar.add(5, 3).is_ok()
        && takes(&mut calendar, 5, &[1, 2, 3])
        && come_later(&mut calendar).is_ok()
        && takes(&mut calendar, 5, &[])
        && takes(&mut calendar, 6, &[4, 5, 7, 9])
        && calendar.add(5, 10).is_ok()
        && takes(&mut calendar, 40, &[6, 8])
        && takes(&mut calendar, 5, &[10])
        && takes(&mut calendar, 6, &[])
}

#[test]
fn numbers_are_due_in_places_of_others(rt: HostRuntime) {
    assert!(rt; are_due_again(rt.alloc()));
}

/// Number 0 is put off from second 3 to second 8; number 1 is asked for in seconds 9 and 4, and number 2 in seconds 4 and 6. Number 3 is
/// told not to wake any more.
fn put_off(wakes: &mut Wakes) -> Result<(), AllocError>
    requires { length wakes.old ≡ 4 }
{
    wakes.set(0, Some(3))?;
    wakes.set(0, Some(8))?;
    wakes.wake(2, 4)?;
    wakes.wake(1, 9)?;
    wakes.wake(1, 4)?;
    wakes.wake(2, 6)?;
    wakes.set(3, Some(3))?;
    wakes.set(3, None)
}

/// Whether just these numbers are woken in a second.
fn wakes_just(wakes: &mut Wakes, second: u32, numbers: &[u32]) -> bool {
    let Ok(woken) = wakes.take(second) else {
        return false;
    };
    woken.as_slice() == numbers
}

/// Each number is woken in the last second that it was given, or in the earliest that it was asked for, and once. The second 2^32 - 1 is
/// refused, and changes nothing.
fn are_woken_in_time(alloc: Global) -> bool {
    let Ok(mut wakes) = Wakes::new(alloc, 4) else {
        return false;
    };
    put_off(&mut wakes).is_ok()
        && wakes_just(&mut wakes, 3, &[])
        && wakes.due(1) == Some(4)
        && wakes_just(&mut wakes, 4, &[1, 2])
        && wakes_just(&mut wakes, 9, &[])
        && wakes.due(0) == Some(8)
        && wakes.due(1) == None
        && wakes.due(4) == None
        && wakes.set(0, Some(u32::MAX)).is_err()
        && wakes.due(0) == Some(8)
}

#[test]
fn numbers_are_woken_in_time(rt: HostRuntime) {
    assert!(rt; are_woken_in_time(rt.alloc()));
    assert_eq!(rt; within(10, Some(9)), Some(9));
    assert_eq!(rt; within(10, Some(10)), None);
    assert_eq!(rt; within(10, None), None);
}

/// The activities of persons 4 and 2 end in second 60, that of person 1 never; persons 9 and 8 land in second 60.
fn five_persons(alloc: Global) -> Agents {
    let mut agents = Agents::new(alloc);
    let _ = agents.start(4, Some(60));
    let _ = agents.start(1, None);
    let _ = agents.start(2, Some(60));
    let _ = agents.fly(9, 60);
    let _ = agents.fly(8, 60);
    agents
}

/// Whether just these persons land in a second.
fn land(agents: &mut Agents, second: u32, persons: &[u32]) -> bool {
    let Ok(landed) = agents.arrivals(second) else {
        return false;
    };
    landed.rows.as_slice() == persons
}

/// Whether just the activities of these persons end in a second.
fn leave(agents: &mut Agents, second: u32, persons: &[u32]) -> bool {
    let Ok(left) = agents.ends(second) else {
        return false;
    };
    left.rows.as_slice() == persons
}

/// They are taken by their numbers, and once.
fn persons_are_due_once(alloc: Global) -> bool {
    let mut agents = five_persons(alloc);
    leave(&mut agents, 59, &[])
        && land(&mut agents, 60, &[8, 9])
        && land(&mut agents, 60, &[])
        && leave(&mut agents, 60, &[2, 4])
        && leave(&mut agents, 60, &[])
}

#[test]
fn persons_are_due_by_number(rt: HostRuntime) {
    assert!(rt; persons_are_due_once(rt.alloc()));
}
