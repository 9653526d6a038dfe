//! Tests of a border between threads.
ghost use Rattle.std.specs.Prelude.{◌≡◌, ◌<◌};

use border_exchange::{Border, Seat, Side};
use std::alloc::Global;
use std::marker::Brand;
use std::sync::Wait;
use std::sync::atomic::AtomicU64;
use std::sync::atomic::Ordering::SeqCst;
use std::sync::ledger::{Blank, Ledger};
use std::thread;
use std::thread::Threads;
use test_programs::Note;

// The maximum number of reads of a counter.
const TURNS: u64 = 1_000_000_000;

// The number of rounds of a test.
const ROUNDS: u32 = 100;

// The number of threads that take each message.
const TAKERS: u64 = 2;

// Waits until the counter is at least `least`, and returns whether it was.
fn wait_for(counter: &AtomicU64, least: u64) -> bool {
    for _turn in 0..TURNS {
        if counter.load(SeqCst) >= least {
            return true;
        }
    }
    false
}

// A border that threads share, and a counter by which one of them waits for others.
#[derive(Drop)]
struct Shared<'a, R: Ledger, L: Ledger, W> {
    rt: &'a W,
    border: &'a Border<Note, R, L>,
    about: &'a AtomicU64,
}

impl<'a, R: Ledger, L: Ledger, W: Wait> Shared<'a, R, L, W> {
    // Puts a message in each round, and then closes the border, so that no taker waits for a message
    // that was not put. Returns whether each message was put.
    fn put_all(&self, seat: Seat<R, L>) -> bool {
        let done = self.put_each(seat);
        self.border.close(self.rt);
        done
    }

    // Puts a message in each round, once all takers are about to take it. A taker that an earlier
    // put did not wake never gets there. Returns whether each message was put.
    fn put_each(&self, mut seat: Seat<R, L>) -> bool {
        for round in 0..ROUNDS {
            if !wait_for(self.about, TAKERS * (u64::from(round) + 1)) || seat.puts() >= ROUNDS {
                return false;
            }
            if self
                .border
                .put(self.rt, &mut seat, message_of(round))
                .is_err()
            {
                return false;
            }
        }
        true
    }

    // Takes the message of each round, and then lets all puts continue, so that no put waits for a
    // taker. Returns whether each message was the one that was put.
    fn take_all(&self) -> bool {
        let done = self.take_each();
        self.about.fetch_add(TAKERS * u64::from(ROUNDS), SeqCst);
        done
    }

    // Takes the message of each round, and returns whether each was the one that was put.
    fn take_each(&self) -> bool {
        for round in 0..ROUNDS {
            self.about.fetch_add(1, SeqCst);
            if self.border.take(self.rt, Side::Rightward, round) != Some(message_of(round)) {
                return false;
            }
        }
        true
    }

    // Closes the border once a taker is about to take. Returns whether it was.
    fn close_after_taker(&self) -> bool {
        let came = wait_for(self.about, 1);
        self.border.close(self.rt);
        came
    }

    // Takes a message that is never put. Returns whether there was none.
    fn take_none(&self) -> bool {
        self.about.store(1, SeqCst);
        self.border.take(self.rt, Side::Leftward, 0).is_none()
    }
}

// Returns the message that is put in a round.
fn message_of(round: u32) -> Note
    requires { round < ROUNDS }
{
    Note::new(Side::Rightward, round, round + 5)
}

// What threads do on a border.
#[derive(Clone, Copy)]
enum Meeting {
    // One puts all messages, and two take them.
    PutAndTake,
    // One closes the border, and one takes.
    CloseAndTake,
}

// Lets threads meet on a border. Returns whether each of them did all of it.
fn met<R: Ledger + Send + Sync, L: Ledger + Send + Sync, W: Threads + Wait + Sync>(
    rt: &W,
    alloc: Global,
    right: Blank,
    left: Blank,
    meeting: Meeting,
) -> bool
    requires right { (right.name ≡ R.name) × (right.parts ≡ R.parts) × (right.parts ≡ 1) }
    requires left { (left.name ≡ L.name) × (left.parts ≡ L.parts) × (left.parts ≡ 1) }
{
    let Ok((border, seat, _other)) = Border::<Note, R, L>::new(alloc, right, left) else {
        return false;
    };
    let counter = AtomicU64::new(0);
    let shared = &Shared {
        rt,
        border: &border,
        about: &counter,
    };
    match meeting {
        Meeting::PutAndTake => {
            let takers = || thread::join(rt, || shared.take_all(), || shared.take_all());
            thread::join(rt, || shared.put_all(seat), takers) == (true, (true, true))
        }
        Meeting::CloseAndTake => {
            thread::join(rt, || shared.close_after_taker(), || shared.take_none()) == (true, true)
        }
    }
}

#[test]
fn two_takers_wait_for_each_put(rt: HostRuntime) {
    let (right, left) = (Blank::new(1), Blank::new(1));
    assert!(rt; met::<Brand, Brand, _>(&rt, rt.alloc(), right, left, Meeting::PutAndTake));
}

#[test]
fn a_close_ends_the_waiting(rt: HostRuntime) {
    let (right, left) = (Blank::new(1), Blank::new(1));
    assert!(rt; met::<Brand, Brand, _>(&rt, rt.alloc(), right, left, Meeting::CloseAndTake));
}
