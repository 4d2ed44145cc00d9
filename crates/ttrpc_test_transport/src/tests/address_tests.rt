//! The parts of addresses, and the refusals of some.

use std::alloc::Global;
use std::test::Fail;
use ttrpc_bench::checks::{Tested, check_named};
use ttrpc_proto::{Error, Result as Answer};
use ttrpc_transport::{Domain, Place, nodelay_from, parse_sockaddr, parse_vsock, socket_of};

/// Addresses, each with its domain and its part.
const ADDRESSES: &[(&str, Domain, &str)] = &[
    ("unix:///run/a.sock", Domain::Unix, "/run/a.sock"),
    ("unix://@a", Domain::Unix, "@a"),
    ("unix://", Domain::Unix, ""),
    ("tcp://127.0.0.1:65500", Domain::Tcp, "127.0.0.1:65500"),
    ("tcp://unix://a", Domain::Tcp, "unix://a"),
    ("vsock://8:1024", Domain::Vsock, "8:1024"),
    ("vsock://-1:1024", Domain::Vsock, "-1:1024"),
];

/// Addresses of no domain, each with its error.
const UNKNOWN: &[(&str, &str)] = &[
    (
        "Vsock://8:1025",
        "Scheme \"Vsock://8:1025\" is not supported",
    ),
    (
        "TCP://127.0.0.1:1",
        "Scheme \"TCP://127.0.0.1:1\" is not supported",
    ),
    ("unix:/a", "Scheme \"unix:/a\" is not supported"),
    (" unix:///a", "Scheme \" unix:///a\" is not supported"),
    ("127.0.0.1:1", "Scheme \"127.0.0.1:1\" is not supported"),
    ("", "Scheme \"\" is not supported"),
];

/// Parts of vsock addresses, each with its cid and its port.
const PARTS: &[(&str, (u32, u32))] = &[
    ("8:1024", (8, 1024)),
    ("-1:1024", (4294967295, 1024)),
    ("\t-1 :0", (4294967295, 0)),
    ("+3:+04", (3, 4)),
    ("4294967295:4294967295", (4294967295, 4294967295)),
];

/// Parts that are no vsock parts, each with its error.
const NO_PARTS: &[(&str, &str)] = &[
    ("8", "sockaddr 8 is not right for vsock"),
    ("", "sockaddr  is not right for vsock"),
    ("1:2:3", "sockaddr 1:2:3 is not right for vsock"),
    ("x:y", "failed to parse cid from \"x\""),
    (":1024", "failed to parse cid from \"\""),
    (" 8:1024", "failed to parse cid from \" 8\""),
    ("-2:1024", "failed to parse cid from \"-2\""),
    ("4294967296:1", "failed to parse cid from \"4294967296\""),
    ("8:", "failed to parse port from \"\""),
    ("-1:-1", "failed to parse port from \"-1\""),
    ("8: 1", "failed to parse port from \" 1\""),
    ("8:4294967296", "failed to parse port from \"4294967296\""),
];

/// Places, each with its text.
const PLACES: &[(&str, &str)] = &[
    ("tcp://127.0.0.1:8080", "127.0.0.1:8080"),
    ("tcp://[::1]:1", "[::1]:1"),
    ("unix:///run/a.sock", "/run/a.sock"),
    ("unix://a@b", "a@b"),
];

/// Addresses that name no place, each with its error. If the error ends with std's text, only its beginning is given.
const NO_PLACES: &[(&str, &str)] = &[
    ("vsock://3:1024", "vsock is not supported"),
    ("vsock://x", "vsock is not supported"),
    ("unix://@a", "abstract unix names are not supported"),
    ("unix://@", "abstract unix names are not supported"),
    ("unix://", "abstract unix names are not supported"),
    (
        "udp://127.0.0.1:1",
        "Scheme \"udp://127.0.0.1:1\" is not supported",
    ),
    (
        "tcp://localhost:80",
        "Failed to parse TCP address 'localhost:80': ",
    ),
    (
        "tcp://127.0.0.1",
        "Failed to parse TCP address '127.0.0.1': ",
    ),
    (
        "tcp://127.0.0.1:65536",
        "Failed to parse TCP address '127.0.0.1:65536': ",
    ),
    ("tcp://::1:80", "Failed to parse TCP address '::1:80': "),
    ("tcp://", "Failed to parse TCP address '': "),
];

/// Values of the variable, each with its meaning.
const SWITCHES: &[(Option<&str>, bool)] = &[
    (None, false),
    (Some("1"), true),
    (Some("true"), true),
    (Some("TRUE"), true),
    (Some("tRuE"), true),
    (Some(""), false),
    (Some("0"), false),
    (Some("false"), false),
    (Some("01"), false),
    (Some("1 "), false),
    (Some("true "), false),
    (Some("yes"), false),
];

/// Returns whether the text begins with `beginning`. It must end there, unless `beginning` ends with a colon and a
/// space.
fn tells(text: &str, beginning: &str) -> bool {
    if beginning.ends_with(": ") {
        text.starts_with(beginning)
    } else {
        text == beginning
    }
}

/// Returns whether the answer is a refusal with a text that begins with `beginning`. The text must end there, unless
/// `beginning` ends with a colon and a space.
pub fn is_refused<T: Drop>(answer: Answer<T>, beginning: &str) -> Result<bool, Fail> {
    match answer {
        Err(Error::Others(text)) => Ok(tells(text.as_str(), beginning)),
        Err(other) => Err(other.into()),
        Ok(_) => Ok(false),
    }
}

fn text_of(alloc: Global, place: Place<'_>) -> Result<String, Fail> {
    Ok(match place {
        Place::Tcp(address) => address.to_string(alloc)?,
        Place::Unix(path) => String::from_str(alloc, path)?,
    })
}

/// Returns whether the address has this domain and this part.
fn has_domain(alloc: Global, address: &str, domain: Domain, part: &str) -> Result<bool, Fail> {
    let (found, rest) = parse_sockaddr(alloc, address)?;
    Ok(found == domain && rest == part)
}

#[test]
fn addresses_are_of_their_domains(rt: HostRuntime) -> Tested {
    for (address, domain, part) in ADDRESSES {
        check_named(address, has_domain(rt.alloc(), address, *domain, part)?)?;
    }
    Ok(())
}

#[test]
fn parts_of_vsock_are_read(rt: HostRuntime) -> Tested {
    for (part, expected) in PARTS {
        check_named(part, parse_vsock(rt.alloc(), part)? == *expected)?;
    }
    Ok(())
}

/// Returns whether the place that the address names has this text.
fn is_place(alloc: Global, address: &str, expected: &str) -> Result<bool, Fail> {
    let text = text_of(alloc, socket_of(alloc, address)?)?;
    Ok(text.as_str() == expected)
}

#[test]
fn places_are_found(rt: HostRuntime) -> Tested {
    for (address, expected) in PLACES {
        check_named(address, is_place(rt.alloc(), address, expected)?)?;
    }
    Ok(())
}

#[test]
fn what_names_nothing_is_refused(rt: HostRuntime) -> Tested {
    let alloc = rt.alloc();
    for (address, text) in UNKNOWN {
        check_named(text, is_refused(parse_sockaddr(alloc, address), text)?)?;
    }
    for (part, text) in NO_PARTS {
        check_named(text, is_refused(parse_vsock(alloc, part), text)?)?;
    }
    for (address, text) in NO_PLACES {
        check_named(text, is_refused(socket_of(alloc, address), text)?)?;
    }
    Ok(())
}

#[test]
fn delay_is_switched_off() -> Tested {
    for (value, expected) in SWITCHES {
        check_named(value.unwrap_or("none"), nodelay_from(*value) == *expected)?;
    }
    Ok(())
}
