//! Jobs are handed to as many workers as there are, each worker's in their order, or are left where there is none.
use crate::asserts::{is, is_in};
use use_shared::work::distribute;

/// How many of these jobs come right after a greater one.
fn steps_back(jobs: &[u64]) -> u64 {
    let mut before: u64 = 0;
    let mut count: u64 = 0;
    for job in jobs {
        count = count.wrapping_add(u64::from(*job < before));
        before = *job;
    }
    count
}

#[test]
fn all_jobs_are_handed_out(rt: HostRuntime) {
    for (jobs, workers, handed) in [
        (10, 0, 0),
        (0, 2, 0),
        (100, 1, 100),
        (100, 2, 100),
        (1000, 40, 1000),
        (20_000, 1, 20_000),
        (20_000, 4, 20_000),
    ] {
        let report = distribute(&rt, rt.alloc(), jobs, workers).expect(&rt, "memory");
        let seen = (report.handed.len() as u64, report.left.len() as u64);
        is(&rt, seen, (handed, jobs - handed));
        let in_order = steps_back(&report.handed) <= workers.saturating_sub(1);
        is_in(&rt, (jobs, workers), in_order, true);
    }
}
