// A gate at which two workers meet.

use crate::Gate;
use std::sync::atomic::{AtomicBool, Ordering};
use std::thread;

/// The line before which the two workers meet, counted from 0.
const MEETING: u64 = 1;

/// What one of the two workers has done.
#[derive(Drop)]
struct Seat {
    /// It came to the meeting's line.
    came: AtomicBool,
    /// It saw that the other came.
    saw: AtomicBool,
}

impl Seat {
    fn make() -> Seat {
        Seat {
            came: AtomicBool::new(false),
            saw: AtomicBool::new(false),
        }
    }

    /// Comes, and looks for the other until it came too, `limit` times at most.
    fn meet(&self, other: &Seat, limit: u64) {
        self.came.store(true, Ordering::SeqCst);
        for _ in 0..limit {
            if other.came.load(Ordering::SeqCst) {
                self.saw.store(true, Ordering::SeqCst);
                return;
            }
            thread::yield_now();
        }
    }
}

/// A gate that holds each of the workers 0 and 1 before its line 1 until the other came to its own line 1, or until it looked for the other
/// as often as the limit says. It lets every other worker and line pass.
#[derive(Drop)]
pub struct MeetGate {
    limit: u64,
    zero: Seat,
    one: Seat,
}

impl MeetGate {
    pub fn make(limit: u64) -> MeetGate {
        MeetGate {
            limit,
            zero: Seat::make(),
            one: Seat::make(),
        }
    }

    /// Whether each of the two workers saw that the other came.
    pub fn met(&self) -> bool {
        self.zero.saw.load(Ordering::SeqCst) && self.one.saw.load(Ordering::SeqCst)
    }
}

impl Gate for MeetGate {
    fn before(&self, worker: u32, line: u64) {
        match (worker, line) {
            (0, MEETING) => self.zero.meet(&self.one, self.limit),
            (1, MEETING) => self.one.meet(&self.zero, self.limit),
            _ => {}
        }
    }
}
