//! What reports say of a goal together: it has failed where one of them fails it, else it is met where one of them meets it (the
//! conditions of the Compose Specification's `depends_on`, and a container that runs).

use engine_types::{Condition, ContainerState, Health, Report};
use event_watch::next_verdict;
use run_model::Verdict;

fn running(health: Health) -> Report {
    Report {
        state: ContainerState::Running,
        exit_code: 0,
        health,
    }
}

fn exited(exit_code: i64) -> Report {
    Report {
        state: ContainerState::Exited,
        exit_code,
        health: Health::Absent,
    }
}

#[test]
fn goals_are_judged_by_all_reports(rt: HostRuntime) {
    let plain = running(Health::Absent);
    let starting = running(Health::Starting);
    let healthy = running(Health::Healthy);
    let unhealthy = running(Health::Unhealthy);
    // a goal, two reports, and the verdicts behind each: met later; met stays; met and then failed; failed stays; not met
    let goals = [
        (
            Condition::Healthy,
            starting,
            healthy,
            Verdict::NotYet,
            Verdict::Met,
        ),
        (
            Condition::Healthy,
            healthy,
            starting,
            Verdict::Met,
            Verdict::Met,
        ),
        (
            Condition::Healthy,
            healthy,
            unhealthy,
            Verdict::Met,
            Verdict::Failed,
        ),
        (
            Condition::Healthy,
            unhealthy,
            healthy,
            Verdict::Failed,
            Verdict::Failed,
        ),
        (
            Condition::Healthy,
            starting,
            starting,
            Verdict::NotYet,
            Verdict::NotYet,
        ),
        (
            Condition::Completed,
            plain,
            exited(0),
            Verdict::NotYet,
            Verdict::Met,
        ),
        (
            Condition::Completed,
            exited(0),
            plain,
            Verdict::Met,
            Verdict::Met,
        ),
        (
            Condition::Completed,
            exited(1),
            exited(0),
            Verdict::Failed,
            Verdict::Failed,
        ),
        (
            Condition::Running,
            plain,
            exited(0),
            Verdict::Met,
            Verdict::Failed,
        ),
        (
            Condition::Started,
            plain,
            exited(1),
            Verdict::Met,
            Verdict::Met,
        ),
    ];
    for (condition, first, second, behind_first, behind_both) in goals {
        let verdict = next_verdict(condition, Verdict::NotYet, &first);
        assert_eq!(rt; verdict, behind_first);
        assert_eq!(rt; next_verdict(condition, verdict, &second), behind_both);
    }
}
