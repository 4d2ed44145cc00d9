//! The runs of the bench's vectors: each on a new core, whole, one byte at a time, and a short one cut at each place.
use crate::server::*;
use crate::tests::client::{ANSWERED, CLOSE, DATA};
use crate::tests::clients::{CALLS_FIRST, CALLS_SECOND, OPENS_FIRST, OPENS_SECOND};
use crate::tests::script::Start;
use crate::tests::script::Step::{self, *};
use crate::tests::servers::{ANSWERS_FIRST, TAKES_FIRST};
use crate::tests::stamps::{Stamps, stamped};
use crate::tests::steps::{act, act_stamped, feeds, feeds_sevens};
use crate::tests::streams::OPENED;
use crate::tests::told::UNKNOWN;
use crate::tests::under_test::{Core, End, Form, Met, Tested};
use std::alloc::{AllocError, Global};
use ttrpc_bench::checks::check_row;
use ttrpc_bench::vectors::Told::{self, Eof, Others};
use ttrpc_bench::vectors::{
    ClientVector, Does, Given, Halves, Has, IdState, MailboxVector, Opening, ServerVector,
};
use ttrpc_wire::values::slices::{behind, front};

/// A vector, as cores see it.
pub trait Vector {
    /// Returns the halves that the vector is run with.
    fn halves(&self) -> Halves;

    /// Returns the vector's bytes, and the number of bytes 7 after them.
    fn comes(&self) -> (&'static [u8], usize);

    /// Returns the steps before the vector.
    fn before(&self) -> &'static [Step];

    /// Returns the steps after the vector.
    fn behind(&self, alloc: Global) -> Result<Vec<Step>, AllocError>;
}

// ---- the runs of vectors

/// The pieces that a vector comes in.
#[derive(Clone, Copy)]
enum Pieces {
    Whole,
    /// One byte at a time. After the header of an oversized frame the bytes come in pieces of a 4,096th.
    Single,
    /// In two pieces. The first has this number of bytes.
    CutAt(usize),
}

/// The greatest length of bytes that are cut at each place. Bytes that open to four megabytes are not cut.
const SHORT: usize = 64;

/// Returns whether each of the vectors over these halves holds for each of these kinds.
pub fn hold_vectors<C: Core, V: Vector>(
    alloc: Global,
    kinds: &[C::Kind],
    vectors: &[V],
    halves: Halves,
    form: Form,
) -> Tested {
    for kind in kinds {
        for (number, vector) in vectors.iter().enumerate() {
            if vector.halves() == halves {
                check_row(number, holds::<C, V>(alloc, *kind, vector, form)?)?;
            }
        }
    }
    Ok(())
}

/// Returns whether the vector holds in all its pieces.
fn holds<C: Core, V: Vector>(alloc: Global, kind: C::Kind, vector: &V, form: Form) -> Met {
    let (bytes, body) = vector.comes();
    let is_short = body == 0 && bytes.len() <= SHORT && vector.halves() != Halves::Swelling;
    let places = if is_short { bytes.len() } else { 0 };
    for place in 1..=places {
        if !holds_in::<C, V>(alloc, kind, vector, Pieces::CutAt(place), form)? {
            return Ok(false);
        }
    }
    Ok(
        holds_in::<C, V>(alloc, kind, vector, Pieces::Whole, form)?
            && holds_in::<C, V>(alloc, kind, vector, Pieces::Single, form)?,
    )
}

/// Returns whether the vector holds for a new core, in these pieces.
fn holds_in<C: Core, V: Vector>(
    alloc: Global,
    kind: C::Kind,
    vector: &V,
    pieces: Pieces,
    form: Form,
) -> Met {
    let mut core = C::start(alloc, kind, Start::Fresh)?;
    let mut stamps = Stamps {
        comes: 0,
        leaves: 0,
    };
    runs(alloc, &mut core, vector, pieces, form, &mut stamps)
}

fn runs<C: Core, V: Vector>(
    alloc: Global,
    core: &mut C,
    vector: &V,
    pieces: Pieces,
    form: Form,
    stamps: &mut Stamps,
) -> Met {
    if !meets(alloc, core, vector.before(), form, stamps)?
        || !comes(alloc, core, vector, pieces, form, stamps)?
    {
        return Ok(false);
    }
    let looked_for = vector.behind(alloc)?;
    meets(alloc, core, looked_for.as_slice(), form, stamps)
}

/// Returns whether each of these steps is met.
fn meets<C: Core>(
    alloc: Global,
    core: &mut C,
    steps: &[Step],
    form: Form,
    stamps: &mut Stamps,
) -> Met {
    for step in steps {
        let met = match form {
            Form::AsTheyStand => act(alloc, core, step, usize::MAX)?,
            Form::Stamped => act_stamped(alloc, core, step, usize::MAX, stamps)?,
        };
        if !met {
            return Ok(false);
        }
    }
    Ok(true)
}

/// Feeds the vector, with its stamps if it has them.
fn comes<C: Core, V: Vector>(
    alloc: Global,
    core: &mut C,
    vector: &V,
    pieces: Pieces,
    form: Form,
    stamps: &mut Stamps,
) -> Met {
    let (bytes, body) = vector.comes();
    if form == Form::Stamped && vector.halves() == Halves::Usual {
        let bytes = stamped(alloc, bytes, &mut stamps.comes)?;
        arrives(alloc, core, bytes.as_slice(), body, pieces)
    } else {
        arrives(alloc, core, bytes, body, pieces)
    }
}

fn arrives<C: End>(alloc: Global, core: &mut C, bytes: &[u8], body: usize, pieces: Pieces) -> Met {
    let (place, size, body_size) = match pieces {
        Pieces::Whole => (0, usize::MAX, usize::MAX),
        Pieces::Single => (0, 1, body / 4096),
        Pieces::CutAt(place) => (place, usize::MAX, usize::MAX),
    };
    Ok(
        feeds(alloc, core, front(bytes, place), size)?
            && feeds(alloc, core, behind(bytes, place), size)?
            && feeds_sevens(alloc, core, body, body_size)?,
    )
}

// ---- the client's table

/// A response to the third call, with the id 5.
const ANSWERED_FIFTH: &[u8] = b"\0\0\0\x05\0\0\0\x05\x02\0\x0a\0\x12\x01\x2a";
/// A response to the second call, with the id 3.
const ANSWERED_THIRD: &[u8] = b"\0\0\0\x05\0\0\0\x03\x02\0\x0a\0\x12\x01\x2b";
/// The item `y` with the id 3.
const ITEM_OF_THIRD: &[u8] = b"\0\0\0\x01\0\0\0\x03\x03\0y";

const NO_STEPS: &[Step] = &[];

const CALLS_THIRD: Step = Calls(0, 0, 5);

#[rattlefmt::skip]
const CALL_FIRST: &[Step] = &[CALLS_FIRST, OPENS_SECOND, CALLS_THIRD, Feed(ANSWERED_FIFTH), Gives(5, true, b"\x2a")];

#[rattlefmt::skip]
const STREAM_FIRST: &[Step] = &[OPENS_FIRST, CALLS_SECOND, CALLS_THIRD, Feed(ANSWERED_FIFTH), Gives(5, true, b"\x2a")];

/// If each answer opens to too much, the third call ends by its deadline.
const LIMITED_THIRD: Step = Calls(10, 0, 5);

const ELAPSED: Told = Others("Request deadline elapsed");

#[rattlefmt::skip]
const SWELLING_CALL_FIRST: &[Step] = &[CALLS_FIRST, OPENS_SECOND, LIMITED_THIRD, Ticks(10), Ends(5, ELAPSED)];

#[rattlefmt::skip]
const SWELLING_STREAM_FIRST: &[Step] = &[OPENS_FIRST, CALLS_SECOND, LIMITED_THIRD, Ticks(10), Ends(5, ELAPSED)];

/// The first call has ended, and no frame finds it again.
const CALL_IS_GONE: &[Step] = &[Waits(1), Feed(ANSWERED), Feed(CLOSE), Waits(1), IsAlive];

/// The first call has not ended, and is answered.
const CALL_IS_ANSWERED: &[Step] = &[Waits(1), Feed(ANSWERED), Gives(1, true, b"\x2a"), IsAlive];

/// The second call is answered.
const SECOND_IS_ANSWERED: &[Step] = &[
    Waits(3),
    Feed(ANSWERED_THIRD),
    Gives(3, true, b"\x2b"),
    IsAlive,
];

/// The second stream goes on.
const SECOND_GOES_ON: &[Step] = &[ReceivesNone(3), Feed(ITEM_OF_THIRD), Receives(3, b"y")];

/// The second call has no outcome.
const SECOND_WAITS: &[Step] = &[Waits(3), IsAlive];

/// The first call has no outcome, or none any more, and the second stream has no event.
const FIRST_WAITS: &[Step] = &[Waits(1), ReceivesNone(3), IsAlive];

/// Returns the id in the vectors of this column.
fn id_of(state: IdState) -> u32 {
    match state {
        IdState::Call | IdState::Stream => 1,
        IdState::NeverOpened => 7,
        IdState::Ended => 5,
        IdState::Even => 2,
        IdState::Zero => 0,
        IdState::AboveNext => 9,
    }
}

impl Vector for ClientVector {
    fn halves(&self) -> Halves {
        self.halves
    }

    fn comes(&self) -> (&'static [u8], usize) {
        (self.bytes, self.body)
    }

    fn before(&self) -> &'static [Step] {
        match (self.id, self.halves) {
            (IdState::Stream, Halves::Swelling) => SWELLING_STREAM_FIRST,
            (IdState::Stream, _) => STREAM_FIRST,
            (_, Halves::Swelling) => SWELLING_CALL_FIRST,
            _ => CALL_FIRST,
        }
    }

    fn behind(&self, alloc: Global) -> Result<Vec<Step>, AllocError> {
        let mut steps = Vec::new(alloc);
        let id = id_of(self.id);
        match self.id {
            IdState::Call => add_outcomes(&mut steps, self.gives)?,
            IdState::Stream => add_items(&mut steps, self.gives)?,
            _ => {
                steps.extend_from_slice(&[Waits(id), ReceivesError(id, UNKNOWN), NextHeard(None)])?
            }
        }
        if self.id == IdState::Stream && self.halves != Halves::Swelling {
            add_another(&mut steps, self.gives)?;
        }
        let (first, second) = others(self.id, self.halves);
        steps.extend_from_slice(first)?;
        steps.extend_from_slice(second)?;
        Ok(steps)
    }
}

/// Returns the steps that check the other calls and streams.
fn others(id: IdState, halves: Halves) -> (&'static [Step], &'static [Step]) {
    match (id, halves) {
        (IdState::Call, Halves::Swelling) => (NO_STEPS, FIRST_WAITS),
        (IdState::Call, _) => (CALL_IS_GONE, SECOND_GOES_ON),
        (IdState::Stream, Halves::Swelling) => (NO_STEPS, SECOND_WAITS),
        (IdState::Stream, _) => (NO_STEPS, SECOND_IS_ANSWERED),
        (_, Halves::Swelling) => (NO_STEPS, FIRST_WAITS),
        _ => (CALL_IS_ANSWERED, SECOND_GOES_ON),
    }
}

/// Adds the steps that check the results of the first call.
fn add_outcomes(steps: &mut Vec<Step>, gives: &[Given]) -> Result<(), AllocError> {
    for given in gives {
        steps.push(match *given {
            Given::Nothing => Waits(1),
            Given::Payload(payload) => Gives(1, true, payload),
            Given::Refusal(why) => Ends(1, why),
        })?;
    }
    Ok(())
}

/// Returns the step that checks a result of the receiver of the first stream.
fn receives(given: Given) -> Step {
    match given {
        Given::Nothing => ReceivesNone(1),
        Given::Payload(item) => Receives(1, item),
        Given::Refusal(why) => ReceivesError(1, why),
    }
}

/// Adds the steps that check the results of the receiver of the first stream. The last result is checked twice.
fn add_items(steps: &mut Vec<Step>, gives: &[Given]) -> Result<(), AllocError> {
    for given in gives {
        steps.push(receives(*given))?;
    }
    if let Some(last) = gives.last() {
        steps.push(receives(*last))?;
    }
    Ok(())
}

/// Adds another item, which is received if the stream goes on. Otherwise the last result is repeated.
fn add_another(steps: &mut Vec<Step>, gives: &[Given]) -> Result<(), AllocError> {
    steps.push(Feed(DATA))?;
    steps.push(match gives.last() {
        None | Some(Given::Nothing) => Receives(1, b"z"),
        Some(last) => receives(*last),
    })?;
    Ok(())
}

// ---- the server's table

/// A request with the id 3.
const ASKED_THIRD: &[u8] = b"\0\0\0\x14\0\0\0\x03\x01\0\x0a\x09demo.Echo\x12\x04Echo\x1a\x01\x2a";
/// A request with the id 99, which is above that of each vector.
const ASKED_LATER: &[u8] = b"\0\0\0\x14\0\0\0\x63\x01\0\x0a\x09demo.Echo\x12\x04Echo\x1a\x01\x2a";
/// The answer to `ASKED_LATER`.
const ECHOED_LATER: &[u8] = b"\0\0\0\x05\0\0\0\x63\x02\0\x0a\0\x12\x01\x2a";

const TAKES_STREAM: Step = TakesStream(1, 1);

/// The server did nothing else.
const NO_MORE: &[Step] = &[Writes(b""), TakesNone, IsAlive];

/// The server goes on.
const GOES_ON: &[Step] = &[Serves(ASKED_LATER, ECHOED_LATER)];

const WAITING_JOB: &[Step] = &[Feed(ASKED)];

const TAKEN_JOB: &[Step] = &[Feed(ASKED), TAKES_FIRST];

const ANSWERED_JOB: &[Step] = &[Feed(ASKED), TAKES_FIRST, ANSWERS_FIRST, Writes(ECHOED)];

const NEWER_JOB: &[Step] = &[Feed(ASKED_THIRD), Takes(1, 3, b"\x2a")];

const OPEN_STREAM: &[Step] = &[Feed(OPENED), TAKES_STREAM];

const CLOSED_STREAM: &[Step] = &[
    Feed(OPENED),
    TAKES_STREAM,
    Feed(CLOSE),
    ReceivesError(1, Eof),
];

const UNHEARD_STREAM: &[Step] = &[Feed(OPENED), TAKES_STREAM, DropsReceiver(1)];

const UNHEARD_CLOSED: &[Step] = &[Feed(OPENED), TAKES_STREAM, Feed(CLOSE), DropsReceiver(1)];

const ENDED_STREAM: &[Step] = &[Feed(OPENED), TAKES_STREAM, EndsStream(1), Writes(CLOSE)];

/// Returns the steps to this state of a server.
fn steps_to(has: Has) -> &'static [Step] {
    match has {
        Has::Fresh => NO_STEPS,
        Has::WaitingJob => WAITING_JOB,
        Has::TakenJob => TAKEN_JOB,
        Has::AnsweredJob => ANSWERED_JOB,
        Has::NewerJob => NEWER_JOB,
        Has::OpenStream => OPEN_STREAM,
        Has::ClosedStream => CLOSED_STREAM,
        Has::UnheardStream => UNHEARD_STREAM,
        Has::UnheardClosedStream => UNHEARD_CLOSED,
        Has::EndedStream => ENDED_STREAM,
    }
}

/// Returns the step that checks this effect.
fn step_of(does: Does) -> Step {
    match does {
        Does::Writes(bytes) => Writes(bytes),
        Does::Answers(code, begins) => WritesStatus(code, begins),
        Does::HandsOut(job, id, payload) => Takes(job, id, payload),
        Does::HandsOutStream(job, id) => TakesStream(job, id),
        Does::Gives(given) => receives(given),
    }
}

impl Vector for ServerVector {
    fn halves(&self) -> Halves {
        self.halves
    }

    fn comes(&self) -> (&'static [u8], usize) {
        (self.bytes, self.body)
    }

    fn before(&self) -> &'static [Step] {
        steps_to(self.has)
    }

    fn behind(&self, alloc: Global) -> Result<Vec<Step>, AllocError> {
        let mut steps = Vec::new(alloc);
        for does in self.does {
            steps.push(step_of(*does))?;
        }
        steps.extend_from_slice(NO_MORE)?;
        if self.halves != Halves::Swelling {
            steps.extend_from_slice(GOES_ON)?;
        }
        Ok(steps)
    }
}

// ---- mailboxes

const TO_RECEIVE: &[Step] = &[OPENS_FIRST];

const TO_SEND: &[Step] = &[Opens(true, false, b"", 1)];

impl Vector for MailboxVector {
    fn halves(&self) -> Halves {
        Halves::Usual
    }

    fn comes(&self) -> (&'static [u8], usize) {
        (self.bytes, 0)
    }

    fn before(&self) -> &'static [Step] {
        match self.opening {
            Opening::ToReceive => TO_RECEIVE,
            Opening::ToSend => TO_SEND,
            Opening::ByFrame => NO_STEPS,
        }
    }

    fn behind(&self, alloc: Global) -> Result<Vec<Step>, AllocError> {
        let mut steps = Vec::new(alloc);
        if self.ends {
            steps.push(EndsInput)?;
        }
        add_items(&mut steps, self.gives)?;
        Ok(steps)
    }
}
