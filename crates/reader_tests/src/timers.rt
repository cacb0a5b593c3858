//! Timers in their order.
use ha_clock::Moment;
use std::alloc::Global;
use timer_queue::{TimerFault, TimerQueue};

// 2024-05-01T20:00:05Z and 20:00:09Z
const FIVE: u64 = 1_714_593_605_000;

const NINE: u64 = 1_714_593_609_000;

/// Whether the timers that are due come in this order, and then none.
fn come(queue: &mut TimerQueue, millis: u64, keys: &[u64]) -> bool {
    let Some(now) = Moment::of_millis(millis) else {
        return false;
    };
    for key in keys {
        if queue.pop_due(now) != Some(*key) {
            return false;
        }
    }
    queue.pop_due(now).is_none()
}

/// Whether the keys of the timers that are due are these.
fn are_due(alloc: Global, queue: &TimerQueue, now: Moment, keys: &[u64]) -> bool {
    match queue.due_keys(alloc, now) {
        Ok(found) => found.as_slice() == keys,
        Err(_) => false,
    }
}

/// Two timers at five, of which the greater key comes first, and one at nine.
fn three(alloc: Global) -> Result<TimerQueue, TimerFault> {
    let (five, nine) = (Moment::at(FIVE), Moment::at(NINE));
    let mut queue = TimerQueue::make(alloc);
    queue.insert(five, 2)?;
    queue.insert(five, 1)?;
    queue.insert(nine, 3)?;
    Ok(queue)
}

/// Whether they are due in their order, come so, and the last is removed once.
fn go(alloc: Global) -> bool {
    let Ok(mut queue) = three(alloc) else {
        return false;
    };
    are_due(alloc, &queue, Moment::at(FIVE), &[1, 2])
        && are_due(alloc, &queue, Moment::at(NINE), &[1, 2, 3])
        && come(&mut queue, FIVE, &[1, 2])
        && queue.remove(3)
        && !queue.remove(3)
}

#[test]
fn timers_come_by_due_then_key(rt: HostRuntime) {
    assert!(rt; go(rt.alloc()));
}
