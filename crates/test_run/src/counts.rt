//! Counts that are wrong, as no run of the program has them.
use crate::asserts::is_in;
use app_threads::counts::{Finding, count, judge, none_counted};
use app_threads::verdict::Verdict;
use std::process::Abort;

/// How often each of three values came, of these values.
fn counts_of<R: Abort + AllocGlobal>(rt: &R, values: &[u64]) -> [u64; 3] {
    let mut counts = none_counted(rt.alloc(), 3).expect(rt, "memory for the counts");
    for value in values {
        if counts.iter().all(|count| *count < 9) {
            count(&mut counts, *value);
        }
    }
    [counts[0], counts[1], counts[2]]
}

#[test]
fn wrong_counts_are_found(rt: HostRuntime) {
    let counts = counts_of(&rt, &[0, 0, 1, 2, 2, 2, 3, u64::MAX]);
    let findings = [judge(2, &counts), judge(1, &counts)];
    let lost = Finding::Wrong { value: 1, times: 1 };
    let doubled = Finding::Wrong { value: 0, times: 2 };
    let wanted = ([2u64, 1, 3], [lost, doubled]);
    is_in(&rt, "counts", (counts, findings), wanted);
}

#[test]
fn a_wrong_count_is_told(rt: HostRuntime) {
    let lost = Finding::Wrong { value: 1, times: 1 };
    let verdict = lost.verdict();
    let text = format!(in rt.alloc(); "{lost}").expect(&rt, "memory for the text");
    let seen = (verdict, verdict.status(), text.as_str());
    let wanted = (Verdict::Wrong, 1, "value 1 counted 1 times");
    is_in(&rt, "a wrong count", seen, wanted);
}
