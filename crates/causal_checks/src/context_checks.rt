use causal::dots::Dot;
use causal::runs::Run;
use contexts::context::{Context, ContextFault};

fn run(replica: u8, first: u16, last: u16) -> Run {
    Run {
        replica,
        first,
        last,
    }
}

fn dot(replica: u8, counter: u16) -> Dot {
    Dot { replica, counter }
}

// The context of the runs 1:1–1, 1:3–3, 1:5–5 and so on, as many as asked for.
fn lone_dots(count: u16) -> Context {
    let mut context = Context::empty();
    // the loop goes over numbers, from which counters are made: no list holds them
    for i in 0..count.min(1000) {
        let _ = context.add_run(run(1, 2 * i + 1, 2 * i + 1));
    }
    context
}

#[test]
fn empty_context(rt: HostRuntime) {
    let context = Context::empty();
    assert_eq!(rt; context.run_count(), 0);
    assert_eq!(rt; context.run_at(0), None);
    assert!(rt; !context.contains(dot(1, 1)));
    assert_eq!(rt; context.highest_counter(1), 0);
}

#[test]
fn gap_closes(rt: HostRuntime) {
    let mut context = Context::empty();
    assert_eq!(rt; context.add_run(run(1, 1, 2)), Ok(()));
    assert_eq!(rt; context.add_run(run(1, 4, 4)), Ok(()));
    assert_eq!(rt; context.run_count(), 2);
    assert_eq!(rt; context.add_run(run(1, 3, 3)), Ok(()));
    assert_eq!(rt; context.run_count(), 1);
    assert_eq!(rt; context.run_at(0), Some(run(1, 1, 4)));
}

#[test]
fn overlapping_runs(rt: HostRuntime) {
    let mut context = Context::empty();
    assert_eq!(rt; context.add_run(run(3, 10, 20)), Ok(()));
    assert_eq!(rt; context.add_run(run(3, 15, 30)), Ok(()));
    assert_eq!(rt; context.add_run(run(3, 12, 13)), Ok(()));
    assert_eq!(rt; context.run_count(), 1);
    assert_eq!(rt; context.run_at(0), Some(run(3, 10, 30)));
    assert!(rt; context.contains(dot(3, 10)));
    assert!(rt; context.contains(dot(3, 30)));
    assert!(rt; !context.contains(dot(3, 9)));
    assert!(rt; !context.contains(dot(3, 31)));
    assert!(rt; !context.contains(dot(2, 15)));
    assert_eq!(rt; context.highest_counter(3), 30);
}

// The last counter of one replica and the first of the next do not touch.
#[test]
fn neighbouring_replicas(rt: HostRuntime) {
    let mut context = Context::empty();
    assert_eq!(rt; context.add_run(run(2, 1, 1)), Ok(()));
    assert_eq!(rt; context.add_run(run(1, 65535, 65535)), Ok(()));
    assert_eq!(rt; context.run_count(), 2);
    assert_eq!(rt; context.run_at(0), Some(run(1, 65535, 65535)));
    assert_eq!(rt; context.run_at(1), Some(run(2, 1, 1)));
    assert_eq!(rt; context.highest_counter(1), 65535);
    assert_eq!(rt; context.highest_counter(2), 1);
}

#[test]
fn full_context(rt: HostRuntime) {
    let mut context = lone_dots(96);
    assert_eq!(rt; context.run_count(), 96);
    // one run more is refused, and nothing changes
    assert_eq!(rt;
        context.add_run(run(2, 1, 1)),
        Err(ContextFault::TooManyRuns)
    );
    assert_eq!(rt; context.run_count(), 96);
    assert!(rt; !context.contains(dot(2, 1)));
    assert_eq!(rt; context.run_at(95), Some(run(1, 191, 191)));
    assert_eq!(rt; context.run_at(96), None);
    // what joins runs still goes in
    assert_eq!(rt; context.add_run(run(1, 2, 2)), Ok(()));
    assert_eq!(rt; context.run_count(), 95);
    assert_eq!(rt; context.run_at(0), Some(run(1, 1, 3)));
    // and now there is room for another replica
    assert_eq!(rt; context.add_run(run(2, 1, 1)), Ok(()));
    assert_eq!(rt; context.run_count(), 96);
    assert_eq!(rt; context.run_at(95), Some(run(2, 1, 1)));
}

// Ninety-six lone dots and the ninety-five between them: one at a time they could pass 96 runs, and together they are one.
#[test]
fn judged_when_finished(rt: HostRuntime) {
    let mut context = lone_dots(96);
    let mut between = Context::empty();
    for i in 1..96u16 {
        let _ = between.add_run(run(1, 2 * i, 2 * i));
    }
    // a run of another replica, lower in order, is the first that the union takes
    assert_eq!(rt; between.add_run(run(2, 7, 7)), Ok(()));
    assert_eq!(rt; between.run_count(), 96);
    assert_eq!(rt; context.unite(&between), Ok(()));
    assert_eq!(rt; context.run_count(), 2);
    assert_eq!(rt; context.run_at(0), Some(run(1, 1, 191)));
    assert_eq!(rt; context.run_at(1), Some(run(2, 7, 7)));
}

#[test]
fn union_too_long(rt: HostRuntime) {
    let mut context = lone_dots(96);
    let mut other = Context::empty();
    assert_eq!(rt; other.add_run(run(1, 193, 200)), Ok(()));
    assert_eq!(rt; context.unite(&other), Err(ContextFault::TooManyRuns));
    assert_eq!(rt; context.run_count(), 96);
    assert!(rt; !context.contains(dot(1, 193)));
    // the other way round it has as many runs
    assert_eq!(rt; other.unite(&context), Err(ContextFault::TooManyRuns));
    assert_eq!(rt; other.run_count(), 1);
    assert_eq!(rt; other.run_at(0), Some(run(1, 193, 200)));
}

#[test]
fn bad_runs(rt: HostRuntime) {
    let mut context = Context::empty();
    assert_eq!(rt; context.add_run(run(0, 1, 1)), Err(ContextFault::BadRun));
    assert_eq!(rt; context.add_run(run(17, 1, 1)), Err(ContextFault::BadRun));
    assert_eq!(rt; context.add_run(run(1, 0, 1)), Err(ContextFault::BadRun));
    assert_eq!(rt; context.add_run(run(1, 3, 2)), Err(ContextFault::BadRun));
    assert_eq!(rt; context.run_count(), 0);
    assert_eq!(rt; context.add_run(run(16, 1, 65535)), Ok(()));
    assert_eq!(rt; context.highest_counter(16), 65535);
}
