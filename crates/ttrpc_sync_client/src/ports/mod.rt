//! The ports of a client's connection: the state that its threads share, and the turn to read.

mod client;
mod read_turn;

pub use self::client::{ClientHeld, ClientLock, ClientRead, ClientWrite};
pub use self::read_turn::{
    CALLS_TO_REST, CallShape, CurrentReader, LONE_FRAME, ReadTurn, ReaderNext,
};
