use std::sync::atomic::{AtomicBool, Ordering};
use std::thread::yield_now;

/// What the workers of a window pass: before and after each task, and before each item that they offer.
/// It promises nothing but that its calls return.
pub trait Gate: Sync {
    fn before(&self, task: u32);

    fn after(&self, task: u32);

    fn offering(&self, item: u32);
}

/// A gate that lets everything pass.
#[derive(Clone, Copy, Debug, PartialEq, Eq)]
pub struct OpenGate;

impl Gate for OpenGate {
    fn before(&self, _task: u32) {}

    fn after(&self, _task: u32) {}

    fn offering(&self, _item: u32) {}
}

/// A gate that holds task 0 until task 1 has ended, for at most so many turns. So it shows that two workers run.
#[derive(Drop)]
pub struct HoldGate {
    limit: u64,
    has_ended: AtomicBool,
    was_reached: AtomicBool,
}

impl HoldGate {
    pub fn new(limit: u64) -> HoldGate {
        HoldGate {
            limit,
            has_ended: AtomicBool::new(false),
            was_reached: AtomicBool::new(false),
        }
    }

    /// Whether the limit was met: task 0 was let go before task 1 had ended.
    pub fn reached(&self) -> bool {
        self.was_reached.load(Ordering::SeqCst)
    }
}

impl Gate for HoldGate {
    fn before(&self, task: u32) {
        if task != 0 {
            return;
        }
        for _ in 0..self.limit {
            if self.has_ended.load(Ordering::SeqCst) {
                return;
            }
            yield_now();
        }
        self.was_reached.store(true, Ordering::SeqCst);
    }

    fn after(&self, task: u32) {
        if task == 1 {
            self.has_ended.store(true, Ordering::SeqCst);
        }
    }

    fn offering(&self, _item: u32) {}
}

/// A gate that holds the offer of one item until another one is offered, for at most so many turns. So it shows that
/// items are offered to what workers share.
#[derive(Drop)]
pub struct OfferGate {
    first: u32,
    second: u32,
    limit: u64,
    was_offered: AtomicBool,
    has_passed: AtomicBool,
}

impl OfferGate {
    pub fn new(first: u32, second: u32, limit: u64) -> OfferGate {
        OfferGate {
            first,
            second,
            limit,
            was_offered: AtomicBool::new(false),
            has_passed: AtomicBool::new(false),
        }
    }

    /// Whether the first item was offered, and found before the limit that the second one was, too.
    pub fn passed(&self) -> bool {
        self.has_passed.load(Ordering::SeqCst)
    }
}

impl Gate for OfferGate {
    fn before(&self, _task: u32) {}

    fn after(&self, _task: u32) {}

    fn offering(&self, item: u32) {
        if item == self.second {
            self.was_offered.store(true, Ordering::SeqCst);
        }
        if item != self.first {
            return;
        }
        for _ in 0..self.limit {
            if self.was_offered.load(Ordering::SeqCst) {
                self.has_passed.store(true, Ordering::SeqCst);
                return;
            }
            yield_now();
        }
    }
}
