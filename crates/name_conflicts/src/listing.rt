ghost use Rattle.std.specs.Prelude.{◌≡◌, IfOk};
ghost use Rattle.std.specs.List.{list_any};
ghost use Rattle.std.specs.Str.{bytes_eq};
ghost use Rattle.name_conflicts.specs.Conflicts.{end_by, has_same, is_twin, listing_for, look_end, network_listed, shown, twin_listed, volume_listed};

use crate::look_end::LookEnd;
use engine_types::{Listed, NetRow, Outcome, Pairs, Reply, Request, label, labels};
use run_lookups::{has_label, is_of_project};
use std::alloc::Global;
use tree_base::{List, Memory, Text, TryCopy};

/// What the Engine is asked to see whether what a create would make is there.
pub(crate) fn listing_for(
    alloc: Global,
    project: &Text,
    request: &Request,
) -> Result<Request, Memory>
    ensures { IfOk result (λ listing. listing ≡ listing_for project.now request.now) }
{
    match request {
        Request::MakeNetwork { .. } => Ok(Request::ListNetworks),
        Request::MakeVolume { .. } => Ok(Request::ListVolumes),
        _ => Ok(Request::ListContainers {
            project: project.copy(alloc)?,
        }),
    }
}

/// How looking for what a create would make ends with an outcome; None where it goes on. No memory.
pub(crate) fn look_end(project: &Text, request: &Request, outcome: &Outcome) -> Option<LookEnd>
    ensures { result ≡ look_end project.now request.now outcome.now }
{
    match outcome {
        Outcome::Answered(reply) => end_by(shown(project, request, reply)),
        Outcome::Lost(_) => Some(LookEnd::Unlisted),
        Outcome::NotSent => Some(LookEnd::Unlisted),
        Outcome::Memory => Some(LookEnd::Memory),
    }
}

fn end_by(shown: Option<bool>) -> Option<LookEnd>
    ensures { result ≡ end_by shown }
{
    match shown {
        Some(true) => Some(LookEnd::Came),
        Some(false) => None,
        None => Some(LookEnd::Unlisted),
    }
}

/// Whether a listing shows what a create would make; None where a reply isn't that listing.
fn shown(project: &Text, request: &Request, reply: &Reply) -> Option<bool>
    ensures { result ≡ shown project.now request.now reply.now }
{
    match request {
        Request::Create { spec, .. } => twin_listed(project, &spec.get().labels, reply),
        Request::MakeNetwork { spec } => network_listed(&spec.name, reply),
        Request::MakeVolume { spec } => volume_listed(&spec.name, reply),
        _ => None,
    }
}

fn twin_listed(project: &Text, others: &Pairs, reply: &Reply) -> Option<bool>
    ensures { result ≡ twin_listed project.now others.now reply.now }
{
    match reply {
        Reply::Containers(rows) => Some(lists_twin(project, others, rows)),
        _ => None,
    }
}

fn lists_twin(project: &Text, others: &Pairs, rows: &List<Listed>) -> bool
    ensures { result ≡ list_any (λ row. is_twin project.now others.now row.labels) rows.now }
{
    rows.as_slice()
        .iter()
        .any(|row| is_twin(project, others, &row.labels))
}

fn network_listed(name: &Text, reply: &Reply) -> Option<bool>
    ensures { result ≡ network_listed name.now reply.now }
{
    match reply {
        Reply::Networks(rows) => Some(lists_network(name, rows)),
        _ => None,
    }
}

fn lists_network(name: &Text, rows: &List<NetRow>) -> bool
    ensures { result ≡ list_any (λ row. bytes_eq row.name name.now) rows.now }
{
    rows.as_slice().iter().any(|row| row.name == *name)
}

fn volume_listed(name: &Text, reply: &Reply) -> Option<bool>
    ensures { result ≡ volume_listed name.now reply.now }
{
    match reply {
        Reply::Volumes(names) => Some(lists_volume(name, names)),
        _ => None,
    }
}

fn lists_volume(name: &Text, names: &List<Text>) -> bool
    ensures { result ≡ list_any (λ own. bytes_eq own name.now) names.now }
{
    names.as_slice().iter().any(|own| *own == *name)
}

/// Whether labels are of a container of the project that has the service and the number that others say.
fn is_twin(project: &Text, others: &Pairs, own: &Pairs) -> bool
    ensures { result ≡ is_twin project.now others.now own.now }
{
    is_of_project(project, own)
        && has_same(labels::SERVICE, others, own)
        && has_same(labels::NUMBER, others, own)
}

fn has_same(name: &str, others: &Pairs, own: &Pairs) -> bool
    ensures { result ≡ has_same name.now others.now own.now }
{
    label(others, name).is_some_and(|value| has_label(own, name, value.as_str()))
}
