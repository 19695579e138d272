use case_files::{Line, Lines};
use declared_set::FileDigest;
use engine_types::{Attach, Condition, Declared, Kind, Need, Policy};
use std::alloc::Global;

/// The word of a condition.
pub(crate) fn condition_word(condition: Condition) -> &'static str {
    match condition {
        Condition::Started => "started",
        Condition::Healthy => "healthy",
        Condition::Completed => "completed",
        Condition::Running => "running",
    }
}

/// The word of a pull policy.
pub(crate) fn policy_word(policy: Policy) -> &'static str {
    match policy {
        Policy::Always => "always",
        Policy::Missing => "missing",
        Policy::Never => "never",
    }
}

/// The word of a kind.
fn kind_word(kind: Kind) -> &'static str {
    match kind {
        Kind::Service => "service",
        Kind::Network => "network",
        Kind::Volume => "volume",
        Kind::Secret => "secret",
        Kind::Config => "config",
    }
}

/// Networks that a container is on, each as its name and then the aliases there.
pub(crate) fn attach_lines(alloc: Global, declared: &Declared, attaches: &[Attach]) -> Lines {
    let mut lines = Lines::new(alloc);
    for attach in attaches {
        lines.push(attach_line(alloc, declared, attach));
    }
    lines
}

fn attach_line(alloc: Global, declared: &Declared, attach: &Attach) -> Line {
    let mut line = Line::new(alloc);
    match declared.networks.get(attach.network as usize) {
        Some(network) => line.word(network.name.as_str()),
        None => line.number(u64::from(attach.network)),
    }
    line.words(attach.aliases.as_slice());
    line
}

/// What a slot waits for, each as the other slot's name and the condition, with `optional`, `restart` or both behind them.
pub(crate) fn need_lines(alloc: Global, declared: &Declared, needs: &[Need]) -> Lines {
    let mut lines = Lines::new(alloc);
    for need in needs {
        lines.push(need_line(alloc, declared, need));
    }
    lines
}

fn need_line(alloc: Global, declared: &Declared, need: &Need) -> Line {
    let mut line = Line::new(alloc);
    match declared.slots.get(need.slot as usize) {
        Some(slot) => line.word(slot.name.as_str()),
        None => line.number(u64::from(need.slot)),
    }
    line.word(condition_word(need.condition));
    if !need.required {
        line.word("optional");
    }
    if need.restart {
        line.word("restart");
    }
    line
}

/// Digests of files, each as the kind and the key of its item, and the digest where it isn't the empty text.
pub(crate) fn digest_lines(alloc: Global, digests: &[FileDigest]) -> Lines {
    let mut lines = Lines::new(alloc);
    for digest in digests {
        lines.push(digest_line(alloc, digest));
    }
    lines
}

fn digest_line(alloc: Global, digest: &FileDigest) -> Line {
    let mut line = Line::of_word(alloc, kind_word(digest.kind));
    line.word(digest.key.as_str());
    if !digest.digest.is_empty() {
        line.word(digest.digest.as_str());
    }
    line
}
