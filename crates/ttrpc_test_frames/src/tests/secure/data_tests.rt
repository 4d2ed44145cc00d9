//! The data of a connection, by name and kind.
ghost use Rattle.std.specs.Prelude.{◌≡◌, codes};
ghost use Rattle.std.specs.BTreeMap.{get_by_text};
ghost use Rattle.std.specs.Option.{option_and_then, option_copied};
ghost use Rattle.ttrpc_secure.specs.Hooks.Kinds.{u32_of};

use std::alloc::Global;
use std::collections::BTreeMap;
use std::test::Fail;
use ttrpc_bench::checks::{Tested, check};
use ttrpc_secure::{ConnectionData, ConnectionDataExt, Datum, Kind};

/// Returns data with one value, which has this name.
fn known(alloc: Global, name: &str, datum: Datum) -> Result<ConnectionData, Fail> {
    let mut data = BTreeMap::new(alloc);
    data.insert(String::from_str(alloc, name)?, datum)?;
    Ok(data)
}

/// Returns whether the value is found with its name and its kind, and not with another name or another kind.
fn is_found<T: Kind + PartialEq, U: Kind>(
    alloc: Global,
    datum: Datum,
    expected: &T,
) -> Result<bool, Fail> {
    let data = known(alloc, "key", datum)?;
    let is_found = match data.get_typed::<T>("key") {
        Some(value) => value == expected,
        None => false,
    };
    Ok(
        is_found
            && data.get_typed::<T>("missing").is_none()
            && data.get_typed::<T>("").is_none()
            && data.get_typed::<U>("key").is_none(),
    )
}

#[test]
fn signed_numbers_are_found(rt: HostRuntime) -> Tested {
    let alloc = rt.alloc();
    check(
        is_found::<i8, u8>(alloc, Datum::I8(-128), &-128)?
            && is_found::<i16, u16>(alloc, Datum::I16(-32768), &-32768)?
            && is_found::<i32, u32>(alloc, Datum::I32(-1), &-1)?
            && is_found::<i64, i32>(alloc, Datum::I64(42), &42)?
            && is_found::<i128, i64>(alloc, Datum::I128(-5), &-5)?
            && is_found::<isize, i64>(alloc, Datum::Isize(0), &0)?,
    )
}

#[test]
fn unsigned_numbers_are_found(rt: HostRuntime) -> Tested {
    let alloc = rt.alloc();
    check(
        is_found::<u8, i8>(alloc, Datum::U8(255), &255)?
            && is_found::<u16, u8>(alloc, Datum::U16(65535), &65535)?
            && is_found::<u32, i32>(alloc, Datum::U32(1234), &1234)?
            && is_found::<u64, bool>(alloc, Datum::U64(42), &42)?
            && is_found::<u128, u64>(alloc, Datum::U128(7), &7)?
            && is_found::<usize, u64>(alloc, Datum::Usize(9), &9)?,
    )
}

#[test]
fn other_values_are_found(rt: HostRuntime) -> Tested {
    let alloc = rt.alloc();
    let text = String::from_str(alloc, "test")?;
    let stored = Datum::Text(text.clone()?);
    let is_text = is_found::<String, Vec<u8>>(alloc, stored, &text)?;
    let bytes = Vec::from_slice(alloc, b"test")?;
    let stored = Datum::Bytes(bytes.clone()?);
    let are_bytes = is_found::<Vec<u8>, String>(alloc, stored, &bytes)?;
    check(is_text && are_bytes && is_found::<bool, u8>(alloc, Datum::Bool(true), &true)?)
}

// The clause of this function states the value that is found.
fn peer(connection_data: &ConnectionData) -> Option<&u32>
    ensures { option_copied result
        ≡ option_and_then u32_of (get_by_text connection_data.now (codes "peer")) }
{
    connection_data.get_typed::<u32>("peer")
}

/// Returns whether the values are found that the test below stores.
fn are_known(data: &ConnectionData) -> bool {
    peer(data) == Some(&1234)
        && data.get_typed::<u64>("count") == Some(&42)
        && data.get_typed::<bool>("flag") == Some(&true)
        && data.get_typed::<bool>("count").is_none()
}

#[test]
fn several_values_are_known(rt: HostRuntime) -> Tested {
    let alloc = rt.alloc();
    let mut data = known(alloc, "count", Datum::U64(42))?;
    data.insert(String::from_str(alloc, "flag")?, Datum::Bool(true))?;
    data.insert(String::from_str(alloc, "peer")?, Datum::U32(1234))?;
    let nothing = BTreeMap::new(alloc);
    check(are_known(&data) && nothing.get_typed::<u64>("count").is_none())
}
