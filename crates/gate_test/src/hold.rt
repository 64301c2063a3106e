//! A gate that holds a worker up.

use outside::Gate;
use std::sync::atomic::{AtomicBool, AtomicU64, Ordering};
use std::thread;

/// How often the gate looks for commits, at most.
const LOOKS: u32 = 10_000_000;

/// How many commits it waits for. The first one may be told late, of a commit that was made before.
const LATER: u64 = 2;

/// A gate of a network of one node. The first worker that is about to judge a transaction goes on once others have committed.
#[derive(Drop)]
pub struct Hold {
    /// Whether a worker came that was about to judge a transaction.
    came: AtomicBool,
    /// Whether the first of them saw others commit while it was held up.
    saw: AtomicBool,
    /// How many commits were told.
    commits: AtomicU64,
}

impl Hold {
    /// A gate to which nobody came yet.
    pub fn new() -> Hold {
        Hold {
            came: AtomicBool::new(false),
            saw: AtomicBool::new(false),
            commits: AtomicU64::new(0),
        }
    }

    /// Whether a worker was about to judge a transaction.
    pub fn came(&self) -> bool {
        self.came.load(Ordering::SeqCst)
    }

    /// Whether others committed while the first of them was held up.
    pub fn saw(&self) -> bool {
        self.saw.load(Ordering::SeqCst)
    }

    /// Waits until others have committed, or it has looked too often.
    fn hold(&self) {
        let before = self.commits.load(Ordering::SeqCst);
        for _ in 0..LOOKS {
            let now = self.commits.load(Ordering::SeqCst);
            if now.wrapping_sub(before) >= LATER {
                self.saw.store(true, Ordering::SeqCst);
                return;
            }
            thread::yield_now();
        }
    }
}

impl Gate for Hold {
    fn before_verify(&self, _node: u8, _flow: u32) {
        let came = self.came.swap(true, Ordering::SeqCst);
        if !came {
            self.hold();
        }
    }

    fn after_commit(&self, _node: u8) {
        self.commits.fetch_add(1, Ordering::SeqCst);
    }
}
