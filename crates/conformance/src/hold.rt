//! A gate that holds calls of two workers of a table, or of two segments of a ring.

use round_eval::Gate;
use std::sync::atomic::AtomicU64;
use std::sync::atomic::Ordering::SeqCst;

/// The maximum number of looks at the calls.
const TURNS: u64 = 1_000_000_000;

/// Which calls are held, and until when.
#[derive(Clone, Copy)]
pub(crate) enum Held {
    /// Those for 0, until there is one for 2.
    Zeros,
    /// All, until both have called.
    All,
}

/// How often each of the two called for 0, for 1 and for 2, which are jobs or rounds.
pub(crate) type Calls = [[u64; 3]; 2];

/// Holds some calls, and counts all.
#[derive(Drop)]
pub(crate) struct Hold {
    held: Held,
    zero: [AtomicU64; 3],
    one: [AtomicU64; 3],
    // How many calls were held in vain, were of a third caller or were for a number above 2.
    wrong: AtomicU64,
}

impl Hold {
    /// Returns a gate that holds these calls.
    pub(crate) fn new(held: Held) -> Hold {
        Hold {
            held,
            zero: [AtomicU64::new(0), AtomicU64::new(0), AtomicU64::new(0)],
            one: [AtomicU64::new(0), AtomicU64::new(0), AtomicU64::new(0)],
            wrong: AtomicU64::new(0),
        }
    }

    /// Returns the number of wrong calls, and the calls of the two.
    pub(crate) fn seen(&self) -> (u64, Calls) {
        let [a, b, c] = &self.zero;
        let [d, e, f] = &self.one;
        let zero = [a.load(SeqCst), b.load(SeqCst), c.load(SeqCst)];
        let one = [d.load(SeqCst), e.load(SeqCst), f.load(SeqCst)];
        (self.wrong.load(SeqCst), [zero, one])
    }

    // Waits until held calls may go on.
    fn wait(&self) {
        for _turn in 0..TURNS {
            let (_, [zero, one]) = self.seen();
            let go_on = match self.held {
                Held::Zeros => zero[2] > 0 || one[2] > 0,
                Held::All => zero != [0; 3] && one != [0; 3],
            };
            if go_on {
                return;
            }
        }
        self.wrong.fetch_add(1, SeqCst);
    }
}

impl Gate for Hold {
    fn entered(&self, who: u32, what: u32) {
        let count = match who {
            0 => self.zero.get(what as usize),
            1 => self.one.get(what as usize),
            _ => None,
        };
        count.unwrap_or(&self.wrong).fetch_add(1, SeqCst);
        match self.held {
            Held::Zeros if what > 0 => (),
            _ => self.wait(),
        }
    }
}
