//! One loop after the other over the same port.

use crate::tests::fakes::{BYTES, Lender, Taker};
use std::io::ErrorKind;
use ttrpc_bench::checks::{Tested, check};
use ttrpc_bench::{AT_ONCE, Giver, Manner, ROOM, Receiver};
use ttrpc_sync::{PortState, read_loop, write_loop};
use ttrpc_wire::values::slices::front;

const IN_FIVES: Manner = Manner { step: 5, ..AT_ONCE };

/// The port of a reader that failed is opened again for the next one.
#[test]
fn a_port_is_read_to_again(rt: HostRuntime) -> Tested {
    let failing = Manner {
        behind: Some(ErrorKind::ConnectionReset),
        ..IN_FIVES
    };
    let mut port = Taker::new(Vec::with_capacity(rt.alloc(), ROOM)?, 3, ROOM, false);
    read_loop(&rt, &mut Giver::new(front(BYTES, 8), failing), &mut port);
    let has_broken = port.state == PortState::Broke(ErrorKind::ConnectionReset);
    read_loop(&rt, &mut Giver::new(&BYTES[8..], IN_FIVES), &mut port);
    let has_ended = port.state == PortState::Ended && port.begun == Some(2);
    check(has_broken && has_ended && port.taken.as_slice() == BYTES)
}

/// The bytes that were lent to the first writer, and that it didn't take, are lent to the next one.
#[test]
fn a_port_is_written_from_again(rt: HostRuntime) -> Tested {
    let mut port = Lender::new(BYTES, 9, 6);
    let mut first = Receiver::new(rt.alloc(), IN_FIVES.ending(8, None))?;
    write_loop(&rt, &mut first, &mut port);
    let has_broken = port.state == PortState::Broke(ErrorKind::WriteZero);
    let mut second = Receiver::new(rt.alloc(), IN_FIVES)?;
    write_loop(&rt, &mut second, &mut port);
    let has_stopped = port.state == PortState::Stopped && port.begun == Some(2);
    check(
        has_broken
            && has_stopped
            && first.taken.as_slice() == front(BYTES, 8)
            && second.taken.as_slice() == &BYTES[8..],
    )
}
