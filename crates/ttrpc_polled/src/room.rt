//! The wakers of the tasks that wait for room in the queue of outgoing frames.
ghost use Rattle.std.specs.Prelude.{◌≡◌, ◌+◌, ◌%◌, ◌^◌, [], None, IfSome, IfNone};
ghost use Rattle.futures.specs.Task.{Covers, Keeps};
ghost use Rattle.ttrpc_polled.specs.Waiting.{sooner};

use crate::wakers::Wakers;
use futures::task::{Context, Poll, Source};
use std::alloc::Global;

/// The wakers of the tasks that wait for room in the queue, each at a place of its own, with the soonest deadline of a waiting call.
#[derive(Drop)]
pub struct RoomWakers {
    waiting: Wakers,
    soonest: Option<u64>,
    places: u64,
}

impl RoomWakers {
    /// Makes an empty collection of wakers.
    pub fn new(alloc: Global) -> RoomWakers
        ensures { (result.waiting ≡ []) × (result.soonest ≡ None) }
    {
        RoomWakers {
            waiting: Wakers::new(alloc),
            soonest: None,
            places: 0,
        }
    }

    /// Returns the place of a call that has one, or a new place.
    pub fn place(&mut self, given: Option<u64>) -> u64
        ensures given { IfSome given (λ place. (result ≡ place) × (self.new ≡ self.old)) }
        ensures fresh { IfNone given
            ((result ≡ (self.old.places + 1) % 2 ^ 64) × (self.new.places ≡ result)) }
        ensures rest { self.new ≡ record self.old { places = self.new.places } }
    {
        match given {
            Some(place) => place,
            None => {
                self.places = self.places.wrapping_add(1);
                self.places
            }
        }
    }

    /// Waits at this place, at this source, until bytes have left. If there is no memory for that, the task is polled again at once.
    pub fn wait<T>(&mut self, place: u64, source: &Source, cx: &mut Context<'_>) -> Poll<T>
        ensures pending { result ≡ Poll.Pending }
        ensures soonest { self.new.soonest ≡ self.old.soonest }
        ensures registered { Covers cx.new (λ s. s ≡ source.now.id) }
        ensures kept { Keeps cx.old cx.new }
    {
        self.waiting.wait(place, source, cx)
    }

    /// Notes that a call with this deadline waits, in nanoseconds.
    pub fn awaits(&mut self, deadline: Option<u64>)
        ensures { self.new ≡ record self.old { soonest = sooner self.old.soonest deadline } }
    {
        self.soonest = sooner(self.soonest, deadline);
    }

    /// Returns the soonest deadline of a waiting call.
    pub fn next_deadline(&self) -> Option<u64>
        ensures { result ≡ self.now.soonest }
    {
        self.soonest
    }

    /// Wakes all tasks, since bytes have left, a deadline has passed, or the connection has failed.
    pub fn wake_all(&mut self)
        ensures { self.new ≡ record self.old { waiting = []; soonest = None } }
    {
        self.waiting.wake_all();
        self.soonest = None;
    }
}

/// Returns the earlier of two moments, or the only one.
pub fn sooner(first: Option<u64>, second: Option<u64>) -> Option<u64>
    ensures { result ≡ sooner first second }
{
    match (first, second) {
        (Some(first), Some(second)) => Some(first.min(second)),
        (Some(first), None) => Some(first),
        (None, second) => second,
    }
}
