//! The cores of a client and of a server. A test carries the bytes between them.
use crate::tests::script::{Start, Step};
use crate::tests::steps::act;
use crate::tests::under_test::{Core, End, Met, Tested};
use std::alloc::Global;
use std::process::Abort;
use ttrpc_wire::values::slices::front;

/// A script of both cores. It runs on new cores for each size of the pieces that bytes are carried in.
#[derive(Clone, Copy)]
pub struct Story {
    /// The behaviour that it shows.
    pub name: &'static str,
    pub deeds: &'static [Deed],
}

/// A step of a story.
#[derive(Clone, Copy)]
pub enum Deed {
    /// A step of the client.
    Client(Step),
    /// A step of the server.
    Server(Step),
    /// All bytes that the client has to write go to the server.
    CarriesUp,
    /// All bytes that the server has to write go to the client.
    CarriesDown,
}

/// The sizes of the pieces that bytes are carried in: one byte, and as many as fit.
const SIZES: [usize; 2] = [1, 64];

/// The number of pieces that are carried at most: more than a story has.
const TURNS: usize = 1000;

/// Checks that each story holds for a client of each of these kinds, and a server with these rules.
pub fn hold_between<C: Core, S: Core>(
    rt: &impl Abort,
    alloc: Global,
    kinds: &[C::Kind],
    rules: S::Kind,
    stories: &[Story],
) -> Tested {
    for kind in kinds {
        for story in stories {
            for size in SIZES {
                holds_between::<C, S>(rt, alloc, *kind, rules, story, size)?;
            }
        }
    }
    Ok(())
}

/// Checks that the story holds for new cores.
fn holds_between<C: Core, S: Core>(
    rt: &impl Abort,
    alloc: Global,
    kind: C::Kind,
    rules: S::Kind,
    story: &Story,
    size: usize,
) -> Tested {
    let mut client = C::start(alloc, kind, Start::Fresh)?;
    let mut server = S::start(alloc, rules, Start::Fresh)?;
    run(rt, alloc, &mut client, &mut server, story, size)
}

/// Checks that each deed of the story is met.
fn run<C: Core, S: Core>(
    rt: &impl Abort,
    alloc: Global,
    client: &mut C,
    server: &mut S,
    story: &Story,
    size: usize,
) -> Tested {
    for (number, deed) in story.deeds.iter().enumerate() {
        let met = is_met(alloc, client, server, deed, size)?;
        assert!(rt; met, "{}: deed {number}, in pieces of {size}", story.name);
    }
    Ok(())
}

fn is_met<C: Core, S: Core>(
    alloc: Global,
    client: &mut C,
    server: &mut S,
    deed: &Deed,
    size: usize,
) -> Met {
    match deed {
        Deed::Client(step) => act(alloc, client, step, size),
        Deed::Server(step) => act(alloc, server, step, size),
        Deed::CarriesUp => carried(alloc, client, server, size),
        Deed::CarriesDown => carried(alloc, server, client, size),
    }
}

/// Carries all bytes that one core has to write to the other, in pieces of this size, at most 64. Returns whether that
/// worked.
fn carried<A: End, B: End>(alloc: Global, from: &mut A, to: &mut B, size: usize) -> Met {
    let mut buffer = [0; 64];
    for _ in 0..TURNS {
        let count = from.lend(&mut buffer[..size.min(64)]);
        if count == 0 {
            return Ok(true);
        }
        if to.feed(alloc, front(&buffer, count))? != count {
            return Ok(false);
        }
        from.report();
    }
    Ok(false)
}
