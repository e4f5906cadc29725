//! What wakes the threads that wait until entries are kept.

use gu_posts::Posts;
use std::sync::{Condvar, Wait, WaitMethods};
use std::time::Duration;

/// How many milliseconds a thread sleeps at most before it looks again.
const LONGEST_SLEEP_MS: u64 = 200;

/// What wakes the threads that wait until entries are kept.
#[derive(Drop)]
pub struct KeptBell {
    changed: Condvar,
}

impl KeptBell {
    /// Creates a bell that nobody waits for.
    pub fn new() -> Self {
        KeptBell {
            changed: Condvar::new(),
        }
    }

    /// Wakes every waiting thread to look again.
    pub fn ring(&self) {
        self.changed.notify_all();
    }

    /// Waits until this many entries are kept, and returns whether they are: once the journal is lost, no more will be.
    pub fn wait<R: Wait, B>(&self, rt: &R, posts: &Posts<B>, number: u64) -> bool {
        for _look in rt.forever() {
            let seen = self.changed.notifications();
            if posts.kept() >= number {
                return true;
            }
            if posts.is_stopped() {
                return false;
            }
            let most = Duration::from_millis(LONGEST_SLEEP_MS);
            self.changed.sleep(rt, seen, most);
        }
        false
    }
}
