//! The texts of a comparison.
use super::runs::{decision_of, names_of, new_run, old_run, spans_of, stock_span, trace_of};
use comparison_text::{About, put_json, put_page, put_text};
use run_comparison::KeptRun;
use span_ids::Verdict;
use std::alloc::Global;
use std::str;
use std::test::Fail;

/// What is compared.
fn about() -> About<'static> {
    About {
        version: "0.1.0",
        old: "old.toml",
        new: "new <1>.toml",
    }
}

/// The comparison of both runs as JSON.
fn wanted_json() -> &'static str {
    "{\"version\":\"0.1.0\",\"old\":{\"name\":\"old.toml\",\"kept\":{\"traces\":1,\"spans\":4,\"bytes\":335},\"without_policy\":{\"traces\":0,\"spans\":0,\"bytes\":0},\"traces\":3,\"ends_beyond\":0,\"spans_of_other_services\":0},\"new\":{\"name\":\"new <1>.toml\",\"kept\":{\"traces\":1,\"spans\":1,\"bytes\":74},\"without_policy\":{\"traces\":0,\"spans\":0,\"bytes\":0},\"traces\":3,\"ends_beyond\":0,\"spans_of_other_services\":0},\"traces\":{\"both\":0,\"only_old\":1,\"only_new\":1,\"none\":2,\"unknown\":0},\"over_time\":{\"from_ms\":4000,\"every_ms\":1000,\"old\":[0,3,0,0,1],\"new\":[1,0,0,0,0]},\"policies\":[{\"name\":\"errors\",\"old\":{\"traces\":0,\"spans\":0,\"bytes\":0},\"new\":null},{\"name\":\"slow\",\"old\":{\"traces\":1,\"spans\":4,\"bytes\":335},\"new\":{\"traces\":1,\"spans\":1,\"bytes\":74}},{\"name\":\"rest\",\"old\":null,\"new\":{\"traces\":0,\"spans\":0,\"bytes\":0}}],\"services\":[{\"name\":\"cart\",\"old\":3,\"new\":0},{\"name\":\"\",\"old\":1,\"new\":0},{\"name\":\"stock\",\"old\":0,\"new\":1}],\"differ\":[{\"trace_id\":\"00000000000000000000000000000001\",\"old\":{\"verdict\":\"sampled\",\"policy\":\"slow\",\"by\":\"wait\",\"spans\":3,\"moment_ms\":5000,\"kept\":true},\"new\":{\"verdict\":\"notSampled\",\"policy\":null,\"by\":\"wait\",\"spans\":3,\"moment_ms\":5100,\"kept\":false}},{\"trace_id\":\"00000000000000000000000000000002\",\"old\":{\"verdict\":\"notSampled\",\"policy\":null,\"by\":\"wait\",\"spans\":1,\"moment_ms\":6500,\"kept\":false},\"new\":{\"verdict\":\"sampled\",\"policy\":\"slow\",\"by\":\"wait\",\"spans\":1,\"moment_ms\":4100,\"kept\":true}}]}"
}

#[test]
fn json(rt: HostRuntime) -> Result<(), Fail> {
    let alloc = rt.alloc();
    let mut line = Vec::new(alloc);
    put_json(&mut line, &old_run(alloc)?, &new_run(alloc)?, &about())?;
    assert_eq!(rt; line.pop(), Some(b'\n'));
    assert_eq!(rt; str::from_utf8(&line)?, wanted_json());
    Ok(())
}

/// What a text has behind some first part of it, where it has that part.
fn behind<'a>(text: &'a str, part: &str) -> Option<&'a str> {
    let (_before, rest) = text.split_once(part)?;
    Some(rest)
}

#[test]
fn page(rt: HostRuntime) -> Result<(), Fail> {
    let alloc = rt.alloc();
    let mut page = Vec::new(alloc);
    put_page(&mut page, &old_run(alloc)?, &new_run(alloc)?, &about())?;
    let text = str::from_utf8(&page)?;
    assert!(rt; text.starts_with("<!doctype html>\n"));
    let block = behind(
        text,
        "<script type=\"application/json\" id=\"comparison\">\n",
    )
    .unwrap_or("");
    assert!(rt; block.starts_with("{\"version\":\"0.1.0\","));
    assert!(rt; behind(block, "\"name\":\"new \\u003c1>.toml\"").is_some());
    assert!(rt; behind(text, "new <1>").is_none());
    assert!(rt; text.ends_with("</html>\n"));
    Ok(())
}

/// The comparison of both runs as text.
fn wanted_text() -> &'static str {
    "tsc compare, version 0.1.0\n  old  old.toml\n  new  new <1>.toml\n\nKept                                   old             new\n  traces                                 1               1  same\n  spans                                  4               1  -3\n  bytes                                335              74  -261\n\nTraces kept by\n  both                                   0\n  the old alone                          1\n  the new alone                          1\n  neither                                2\n\nBy the policy that decided\n  errors (in the old alone)\n    traces                               0               0  same\n    spans                                0               0  same\n    bytes                                0               0  same\n  slow\n    traces                               1               1  same\n    spans                                4               1  -3\n    bytes                              335              74  -261\n  rest (in the new alone)\n    traces                               0               0  same\n    spans                                0               0  same\n    bytes                                0               0  same\n\nServices that lose most\n  cart\n    spans                                3               0  -3\n  (no service.name)\n    spans                                1               0  -1\n\nServices that gain most\n  stock\n    spans                                0               1  +1\n\nSpans kept in each 1000 ms, from 4000 ms on\n  4000                                   0               1  +1\n  5000                                   3               0  -3\n  6000                                   0               0  same\n  7000                                   0               0  same\n  8000                                   1               0  -1\n\nThe first 2 traces that one alone keeps\n  00000000000000000000000000000001\n    old  sampled by slow (wait), 3 spans, at 5000 ms\n    new  notSampled (wait), 3 spans, at 5100 ms\n  00000000000000000000000000000002\n    old  notSampled (wait), 1 spans, at 6500 ms\n    new  sampled by slow (wait), 1 spans, at 4100 ms\n"
}

#[test]
fn plain(rt: HostRuntime) -> Result<(), Fail> {
    let alloc = rt.alloc();
    let mut line = Vec::new(alloc);
    put_text(&mut line, &old_run(alloc)?, &new_run(alloc)?, &about())?;
    assert_eq!(rt; str::from_utf8(&line)?, wanted_text());
    Ok(())
}

/// A run whose kept spans are ten minutes apart, the later one first, and whose policies have the same name; its name has
/// what would end a line.
fn long_run(alloc: Global) -> Result<KeptRun, Fail> {
    let mut run = KeptRun::new(alloc, names_of(alloc, &["a\nb", "a\nb"])?)?;
    let spans = spans_of(alloc, stock_span())?;
    let Some(trace) = trace_of(2) else {
        return Ok(run);
    };
    run.decided(
        &decision_of(trace, 700_000, 1, Some(1), Verdict::Sampled),
        &spans,
    )?;
    run.decided(
        &decision_of(trace, 100_000, 1, None, Verdict::NotSampled),
        &[],
    )?;
    for span in &spans {
        run.kept_late(100_000, span)?;
    }
    Ok(run)
}

#[test]
fn wide_steps(rt: HostRuntime) -> Result<(), Fail> {
    let alloc = rt.alloc();
    let mut line = Vec::new(alloc);
    let run = long_run(alloc)?;
    put_json(&mut line, &run, &run, &about())?;
    let text = str::from_utf8(&line)?;
    // 600 steps of a second are too many: steps of two seconds, from the fiftieth to the 350th
    assert!(rt;
        behind(
            text,
            "\"over_time\":{\"from_ms\":100000,\"every_ms\":2000,\"old\":[1,0,"
        )
        .is_some()
    );
    // kept once, though it was decided again otherwise; the late span is under no policy
    assert!(rt;
        behind(
            text,
            "\"without_policy\":{\"traces\":0,\"spans\":1,\"bytes\":74},\"traces\":1,"
        )
        .is_some()
    );
    assert!(rt;
        behind(
            text,
            "\"traces\":{\"both\":1,\"only_old\":0,\"only_new\":0,\"none\":0,\"unknown\":0}"
        )
        .is_some()
    );
    assert!(rt;
        behind(
            text,
            "{\"name\":\"a\\nb\",\"old\":{\"traces\":1,\"spans\":1,\"bytes\":74},\"new\":null}"
        )
        .is_some()
    );
    let mut plain = Vec::new(alloc);
    put_text(&mut plain, &run, &run, &about())?;
    assert!(rt; behind(str::from_utf8(&plain)?, "\n  a?b (in the old alone)\n").is_some());
    Ok(())
}
