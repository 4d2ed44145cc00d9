//! Tables with more entries than the row has: the results of calls, the entries that they leave, and the table after memory was refused.

use super::Table;
use std::test::Fail;

type Tested = Result<(), Fail>;

/// Keys that rise, and their values: four more than a row has.
const RISING: [(u64, u64); 20] = [
    (10, 1),
    (20, 2),
    (30, 3),
    (40, 4),
    (50, 5),
    (60, 6),
    (70, 7),
    (80, 8),
    (90, 9),
    (100, 10),
    (110, 11),
    (120, 12),
    (130, 13),
    (140, 14),
    (150, 15),
    (160, 16),
    (170, 17),
    (180, 18),
    (190, 19),
    (200, 20),
];

/// Fails if the condition does not hold.
fn check(holds: bool) -> Tested {
    if holds {
        Ok(())
    } else {
        Err(Fail::new("a condition does not hold"))
    }
}

/// Returns whether the table has these entries and no others.
fn has(table: &Table<u64>, entries: &[(u64, u64)]) -> bool {
    let mut all = table.len() == entries.len()
        && table.is_empty() == entries.is_empty()
        && table.first() == entries.first().map(|entry| entry.0);
    for (key, value) in entries {
        all = all && table.get(*key).copied() == Some(*value);
    }
    all
}

/// Puts a value under a key, and returns whether `was` was there before. If memory is refused, checks that the table is as it was.
fn puts(
    table: &mut Table<u64>,
    (key, value): (u64, u64),
    before: &[(u64, u64)],
    was: Option<u64>,
) -> Result<bool, Fail> {
    match table.insert(key, value) {
        Ok(found) => Ok(found == was),
        Err(error) => {
            check(has(table, before) && table.get(key).is_none())?;
            Err(error.into())
        }
    }
}

/// Puts the rising keys into an empty table, and returns whether it has them then.
fn rises(table: &mut Table<u64>) -> Result<bool, Fail> {
    let mut all = has(table, &[]);
    for (i, entry) in RISING.iter().enumerate() {
        all = puts(table, *entry, &RISING[..i], None)? && all;
    }
    Ok(all && has(table, &RISING))
}

/// Returns whether the entries leave in their order, and leave the others.
fn leave_in_order(table: &mut Table<u64>) -> bool {
    let mut all = true;
    for (i, (key, value)) in RISING.iter().enumerate() {
        all = all
            && table.remove(*key) == Some(*value)
            && table.remove(*key).is_none()
            && has(table, &RISING[i + 1..]);
    }
    all
}

#[test]
fn entries_leave_in_order(rt: HostRuntime) -> Tested {
    let mut table = Table::new(rt.alloc());
    check(rises(&mut table)? && leave_in_order(&mut table))
}

/// Keys that are removed, and the values that are found.
const REMOVED: [(u64, Option<u64>); 8] = [
    (200, Some(20)),
    (150, Some(15)),
    (155, None),
    (20, Some(2)),
    (50, Some(5)),
    (5, None),
    (10, Some(1)),
    (210, None),
];

/// Returns whether these keys leave out of their order.
fn leave_out_of_order(table: &mut Table<u64>) -> bool {
    let mut all = true;
    for (key, value) in REMOVED {
        all = all && table.remove(key) == value && table.get(key).is_none();
    }
    all && table.len() == 15 && table.first() == Some(30)
}

#[test]
fn entries_leave_out_of_order(rt: HostRuntime) -> Tested {
    let mut table = Table::new(rt.alloc());
    let leave = rises(&mut table)? && leave_out_of_order(&mut table);
    table.clear();
    check(leave && has(&table, &[]))
}

/// An entry for a table of the rising keys, the value under its key before, and the number of entries afterwards. The key is, in turn,
/// among the older keys, between two of them, below all, in the row, between two keys of the row, and above all.
const MORE: [((u64, u64), Option<u64>, usize); 6] = [
    ((20, 21), Some(2), 20),
    ((25, 22), None, 21),
    ((5, 23), None, 21),
    ((120, 24), Some(12), 20),
    ((125, 25), None, 21),
    ((205, 26), None, 21),
];

/// Returns whether all rising entries leave the table, in which this entry may have replaced one of their values.
fn rising_leave(table: &mut Table<u64>, entry: (u64, u64)) -> bool {
    let mut all = true;
    for (key, value) in RISING {
        let expected = if key == entry.0 { entry.1 } else { value };
        all = all && table.remove(key) == Some(expected);
    }
    all
}

/// Returns whether the entry comes into the table, which then has `len` entries. If the entry's key is new, it must stay alone after the
/// others have left.
fn comes(
    table: &mut Table<u64>,
    entry: (u64, u64),
    was: Option<u64>,
    len: usize,
) -> Result<bool, Fail> {
    let is_put = puts(table, entry, &RISING, was)? && table.len() == len;
    let left = if len > 20 { Some(entry.0) } else { None };
    Ok(is_put && rising_leave(table, entry) && table.first() == left)
}

#[test]
fn entries_come_anywhere(rt: HostRuntime) -> Tested {
    for (entry, was, len) in MORE {
        let mut table = Table::new(rt.alloc());
        check(rises(&mut table)? && comes(&mut table, entry, was, len)?)?;
    }
    Ok(())
}

/// Returns whether the entries leave by rising key, and nothing after them.
fn leave_by_key(table: &mut Table<u64>) -> bool {
    let mut all = true;
    for entry in RISING {
        all = all && table.pop_first() == Some(entry);
    }
    all && table.pop_first().is_none()
}

#[test]
fn the_least_leaves_first(rt: HostRuntime) -> Tested {
    let mut table = Table::new(rt.alloc());
    check(rises(&mut table)? && leave_by_key(&mut table))
}

#[test]
fn values_are_lent(rt: HostRuntime) -> Tested {
    let mut table = Table::new(rt.alloc());
    let has_risen = rises(&mut table)?;
    for (key, new) in [(10, 101), (200, 102), (15, 103)] {
        if let Some(value) = table.get_mut(key) {
            *value = new;
        }
    }
    check(
        has_risen
            && table.get(10).copied() == Some(101)
            && table.get(200).copied() == Some(102)
            && table.get(15).is_none(),
    )
}
