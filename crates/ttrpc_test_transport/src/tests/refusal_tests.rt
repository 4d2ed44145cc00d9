//! Addresses where no listener can be bound, or no connection can be made.

use crate::tests::address_tests::is_refused;
use crate::tests::pairs::{Site, address_of, clean_behind};
use std::alloc::Global;
use std::fs;
use std::io::{ErrorKind, Read};
use std::net::{Net, TcpListener, TcpStream};
use std::rt::Files;
use std::test::Fail;
use ttrpc_bench::checks::{Tested, check, check_named};
use ttrpc_proto::{Error, Result as Answer};
use ttrpc_transport::{ClientConnection, PipeListener};

/// Addresses that name no place, each with its error. If the error ends with std's text, only its beginning is given.
const REFUSED: &[(&str, &str)] = &[
    ("vsock://3:1024", "vsock is not supported"),
    ("unix://@a", "abstract unix names are not supported"),
    (
        "Tcp://127.0.0.1:1",
        "Scheme \"Tcp://127.0.0.1:1\" is not supported",
    ),
    (
        "tcp://localhost:1",
        "Failed to parse TCP address 'localhost:1': ",
    ),
];

#[test]
fn no_places_are_refused(rt: HostRuntime) -> Tested {
    let alloc = rt.alloc();
    for (address, text) in REFUSED {
        let bound = PipeListener::new(&rt, alloc, address, false);
        let connected = ClientConnection::client_connect(&rt, alloc, address, false);
        let is_unbound = is_refused(bound, text)?;
        check_named(address, is_refused(connected, text)? && is_unbound)?;
    }
    Ok(())
}

/// Returns whether the answer is the system's refusal of this kind.
fn is_fault<T: Drop>(answer: Answer<T>, expected: ErrorKind) -> Result<bool, Fail> {
    match answer {
        Err(Error::Nix(kind)) => Ok(kind == expected),
        Err(other) => Err(other.into()),
        Ok(_) => Ok(false),
    }
}

/// Returns whether the address is in use, so that no listener can be bound there.
fn is_in_use<R>(rt: &R, alloc: Global, address: &str) -> Result<bool, Fail>
where
    R: Files + Net<Listener = TcpListener, Stream = TcpStream>,
{
    let bound = PipeListener::new(rt, alloc, address, false);
    is_fault(bound, ErrorKind::AddrInUse)
}

/// Returns whether a connection to the address fails with this kind, since nobody listens there.
fn is_alone<R>(rt: &R, alloc: Global, address: &str, expected: ErrorKind) -> Result<bool, Fail>
where
    R: Net<Stream = TcpStream>,
{
    let connected = ClientConnection::client_connect(rt, alloc, address, false);
    is_fault(connected, expected)
}

/// An existing file is left as it is.
#[test]
fn a_file_is_not_replaced(rt: HostRuntime) -> Tested {
    fs::write(&rt, "file.sock", "a file")?;
    let is_in_use = is_in_use(&rt, rt.alloc(), "unix://file.sock")?;
    let mut text = [0u8; 8];
    let count = fs::open(&rt, "file.sock")?.read(&mut text)?;
    fs::remove_file(&rt, "file.sock")?;
    check(is_in_use && &text[..count] == b"a file".as_slice())
}

/// The file of a listener is left as it is, too, even after the listener is closed.
#[test]
fn a_listeners_file_stays(rt: HostRuntime) -> Tested {
    let alloc = rt.alloc();
    let address = "unix://stays.sock";
    let _ = fs::remove_file(&rt, "stays.sock");
    let listener = PipeListener::new(&rt, alloc, address, false)?;
    let before = is_in_use(&rt, alloc, address)?;
    listener.close()?;
    let after = is_in_use(&rt, alloc, address);
    check(clean_behind(&rt, Site::Path("stays.sock"), after)? && before)
}

/// Nobody listens at a path without a file, and nobody listens at a port after its listener is gone.
#[test]
fn nobody_listens(rt: HostRuntime) -> Tested {
    let alloc = rt.alloc();
    let is_not_found = is_alone(&rt, alloc, "unix://nobody.sock", ErrorKind::NotFound)?;
    let listener = PipeListener::new(&rt, alloc, "tcp://127.0.0.1:0", false)?;
    let address = address_of(alloc, &listener)?;
    let is_in_use = is_in_use(&rt, alloc, address.as_str())?;
    drop(listener);
    let is_gone = is_alone(&rt, alloc, address.as_str(), ErrorKind::ConnectionRefused)?;
    check(is_not_found && is_in_use && is_gone)
}
