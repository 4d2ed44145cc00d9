//! The reports of runs, event by event.
use crate::table::HealthTable;
use crate::tests::answers_tests::table;
use crate::tests::events::Act::{self, *};
use crate::tests::events::events_of;
use crate::tests::worlds::{Over, Report, run_over};
use std::alloc::Global;
use std::test::Fail;
use ttrpc::cores::server::Rules;

/// The calls of a list, each with its status, or `None` if no list is reported.
type Expected = Option<&'static [(u32, i32)]>;

/// A call with an outcome, and an end without more bytes to move. The request is 35 bytes long, and the response 16.
const ONE_CALL: &[Act] = &[
    Check("a", 0),
    CarryUp(35),
    DeliverUp(35),
    Take,
    Answer(1, "a"),
    CarryDown(16),
    DeliverDown(16),
    Outcome(1),
    Take,
    CarryUp(1),
    CarryDown(1),
    DeliverUp(1),
    DeliverDown(1),
];

/// The same, whatever the frames' lengths are.
const ANY_LENGTH: &[Act] = &[
    Check("a", 0),
    CarryUp(99),
    DeliverUp(99),
    Take,
    Answer(1, "a"),
    CarryDown(99),
    DeliverDown(99),
    Outcome(1),
];

/// Two calls, with answers and outcomes in the other order.
const OTHER_ORDER: &[Act] = &[
    Check("a", 0),
    Check("c", 0),
    CarryUp(99),
    CarryUp(99),
    DeliverUp(999),
    Take,
    Take,
    Answer(2, "c"),
    Answer(1, "a"),
    CarryDown(99),
    CarryDown(99),
    DeliverDown(999),
    Outcome(3),
    Outcome(1),
];

/// A call that expires before its answer.
const EXPIRES: &[Act] = &[
    Check("a", 10),
    CarryUp(99),
    DeliverUp(99),
    Take,
    Tick(10),
    Outcome(1),
];

/// A call for a name that isn't there.
const NOT_THERE: &[Act] = &[
    Check("b", 0),
    CarryUp(99),
    DeliverUp(99),
    Take,
    Answer(1, "b"),
    CarryDown(99),
    DeliverDown(99),
    Outcome(1),
];

/// An answer with another status than the table's last, and the answer for another name.
const OTHER_STATUS: &[Act] = &[
    Check("a", 0),
    CarryUp(99),
    DeliverUp(99),
    Take,
    AnswerStatus(1, b"\x08\x02"),
];

const OTHER_NAME: &[Act] = &[
    Check("a", 0),
    CarryUp(99),
    DeliverUp(99),
    Take,
    Answer(1, "c"),
];

/// A call of another method of the server, which is answered at will.
const OTHER_METHOD: &[Act] = &[
    Other("a"),
    CarryUp(99),
    DeliverUp(99),
    Take,
    AnswerStatus(1, b"\x08\x07"),
    CarryDown(99),
    DeliverDown(99),
    Outcome(1),
];

/// Runs under either rules, over plain halves and over stamps, with what is reported.
const ROWS: &[(&[Act], Expected)] = &[
    (&[], Some(&[])),
    (ANY_LENGTH, Some(&[(1, 1)])),
    (OTHER_ORDER, Some(&[(1, 1), (3, 2)])),
    (EXPIRES, Some(&[])),
    (NOT_THERE, Some(&[])),
    (OTHER_STATUS, None),
    (OTHER_NAME, None),
    (OTHER_METHOD, Some(&[])),
];

/// Returns whether this is reported.
fn is_reported(report: &Report, expected: Expected) -> bool {
    match (report, expected) {
        (Some(list), Some(pairs)) => {
            list.len() == pairs.len()
                && list.iter().zip(pairs).all(|(given, pair)| given.0 == pair.0
                    && given.1.status == pair.1)
        }
        (None, None) => true,
        (Some(_), None) | (None, Some(_)) => false,
    }
}

/// Returns what is reported of these acts.
fn report_of(
    alloc: Global,
    table: &HealthTable,
    over: Over,
    rules: Rules,
    acts: &[Act],
) -> Result<Report, Fail> {
    run_over(alloc, over, rules, events_of(alloc, table, acts)?, table)
}

/// Fails unless each row is as stated.
fn hold(alloc: Global, over: Over) -> Result<(), Fail> {
    let table = table(alloc)?;
    for (acts, expected) in ROWS {
        for rules in [Rules::Async, Rules::Sync] {
            let report = report_of(alloc, &table, over, rules, acts)?;
            if !is_reported(&report, *expected) {
                return Err("a run is reported otherwise".into());
            }
        }
    }
    Ok(())
}

#[test]
fn runs_are_reported_over_plain_halves(rt: HostRuntime) -> Result<(), Fail> {
    hold(rt.alloc(), Over::Plain)
}

#[test]
fn runs_are_reported_over_stamps(rt: HostRuntime) -> Result<(), Fail> {
    hold(rt.alloc(), Over::Stamps)
}

#[test]
fn one_call_is_told_its_status(rt: HostRuntime) -> Result<(), Fail> {
    let table = table(rt.alloc())?;
    let report = report_of(rt.alloc(), &table, Over::Plain, Rules::Async, ONE_CALL)?;
    assert!(rt; is_reported(&report, Some(&[(1, 1)])));
    Ok(())
}

/// For `tools/refuse-memory`: an event with refused memory has that as its reply, and the call then has no outcome.
#[test]
fn refused_memory_is_an_error_or_leaves_the_call_out(rt: HostRuntime) -> Result<(), Fail> {
    let table = table(rt.alloc())?;
    let report = report_of(rt.alloc(), &table, Over::Plain, Rules::Async, ONE_CALL)?;
    assert!(rt; is_reported(&report, Some(&[(1, 1)])) || is_reported(&report, Some(&[])));
    Ok(())
}
