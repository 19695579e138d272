//! An Engine in memory that settles, and a script that speaks of one of its containers.

use engine_types::{ContainerSpec, ContainerState, Outcome, Reply, Report, Request};
use memory_engine::{Change, MemoryEngine, Tick};
use shared_hand::SharedEngine;
use std::alloc::Global;
use std::test::Fail;
use tree_base::{Boxed, Memory, Text};

/// Makes an exchange on an Engine: what comes of it.
fn outcome_on(alloc: Global, shared: &mut SharedEngine, request: &Request) -> Outcome {
    let (outcome, kept) = shared.exchange(alloc, request);
    drop(kept);
    outcome
}

fn pull(alloc: Global) -> Result<Request, Memory> {
    let name = Text::from_str(alloc, "nginx")?;
    Ok(Request::Pull { name })
}

fn create(alloc: Global, name: &str) -> Result<Request, Memory> {
    let mut spec = ContainerSpec::empty(alloc);
    spec.image = Some(Text::from_str(alloc, "nginx")?);
    let spec = Boxed::new(alloc, spec)?;
    let name = Text::from_str(alloc, name)?;
    Ok(Request::Create { name, spec })
}

/// Starts a container with this name: its id.
fn started(alloc: Global, shared: &mut SharedEngine, name: &str) -> Result<Text, Memory> {
    let create = create(alloc, name)?;
    let id = id_made(outcome_on(alloc, shared, &create))?;
    let start = Request::Start {
        id: id.copy(alloc)?,
    };
    drop(outcome_on(alloc, shared, &start));
    Ok(id)
}

fn id_made(outcome: Outcome) -> Result<Text, Memory> {
    match outcome {
        Outcome::Answered(Reply::Made(id)) => Ok(id),
        other => {
            drop(other);
            Err(Memory)
        }
    }
}

/// What a look at a container tells.
fn report_on(alloc: Global, shared: &mut SharedEngine, id: &Text) -> Result<Report, Memory> {
    let look = Request::Inspect {
        id: id.copy(alloc)?,
    };
    match outcome_on(alloc, shared, &look) {
        Outcome::Answered(Reply::State(report)) => Ok(report),
        other => {
            drop(other);
            Err(Memory)
        }
    }
}

#[test]
fn a_script_speaks_before_a_look(rt: HostRuntime) -> Result<(), Fail> {
    let alloc = rt.alloc();
    let mut engine = MemoryEngine::fresh(alloc)?;
    let container = Text::from_str(alloc, "scripted")?;
    engine.script.push(Tick {
        container,
        change: Change::Exit(3),
    })?;
    let mut shared = SharedEngine::settling(alloc, engine);
    let pull = pull(alloc)?;
    drop(outcome_on(alloc, &mut shared, &pull));
    let scripted = started(alloc, &mut shared, "scripted")?;
    let other = started(alloc, &mut shared, "other")?;
    for _ in 0..3 {
        let report = report_on(alloc, &mut shared, &scripted)?;
        assert!(rt;
            report.state == ContainerState::Running,
            "the script speaks of it"
        );
    }
    let report = report_on(alloc, &mut shared, &other)?;
    assert!(rt;
        report.state == ContainerState::Running,
        "at the first look"
    );
    let report = report_on(alloc, &mut shared, &other)?;
    assert!(rt; report.state == ContainerState::Exited, "at the second");
    assert_eq!(rt; report.exit_code, 0);
    shared.pause(250);
    let report = report_on(alloc, &mut shared, &scripted)?;
    assert!(rt; report.state == ContainerState::Exited, "by the script");
    assert_eq!(rt; report.exit_code, 3);
    Ok(())
}
