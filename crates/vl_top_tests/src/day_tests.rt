//! Rows of more days than one.
use crate::program_tests::{load, query_after_crash, run_on};
use crate::vaults_tests::image_of;
use std::test::Fail;

/// Two rows, of which one is of the last nanosecond of a day.
const ROWS: &[u8] = b"{\"_time\":\"2024-05-01T23:59:59.999999999Z\",\"_msg\":\"a\"}\n\
    {\"_time\":\"2024-05-02T00:00:00Z\",\"_msg\":\"b\"}\n";

/// Queries, and what each gives after one loading of the rows and after two.
const ANSWERS: &[(&str, &str, &str)] = &[
    (
        "_time:2024-05-01Z | fields _msg",
        "{\"_msg\":\"a\"}\n",
        "{\"_msg\":\"a\"}\n{\"_msg\":\"a\"}\n",
    ),
    (
        "_time:2024-05-02Z | fields _msg",
        "{\"_msg\":\"b\"}\n",
        "{\"_msg\":\"b\"}\n{\"_msg\":\"b\"}\n",
    ),
    ("_time:2024-05-03Z | fields _msg", "", ""),
    (
        "* | fields _msg",
        "{\"_msg\":\"a\"}\n{\"_msg\":\"b\"}\n",
        "{\"_msg\":\"a\"}\n{\"_msg\":\"b\"}\n{\"_msg\":\"a\"}\n{\"_msg\":\"b\"}\n",
    ),
];

#[test]
fn rows_are_found_by_their_days(rt: HostRuntime) -> Result<(), Fail> {
    let once = load(&rt, ROWS, &[])?;
    assert_eq!(rt; once.output(), "flushed 1\n");
    let image = image_of(&once.vault, once.vault.calls(), 0)?;
    let twice = run_on(&rt, &["load", "--dir", "d"], ROWS, image)?;
    assert_eq!(rt; twice.output(), "flushed 2\n");
    for (text, first, second) in ANSWERS {
        let ended = query_after_crash(&rt, text, &once.vault, once.vault.calls(), 0)?;
        assert_eq!(rt; ended.output(), *first, "{text} after one loading");
        let ended = query_after_crash(&rt, text, &twice.vault, twice.vault.calls(), 0)?;
        assert_eq!(rt; ended.output(), *second, "{text} after two loadings");
    }
    Ok(())
}
