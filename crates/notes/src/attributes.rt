ghost use Rattle.std.specs.Prelude.{◌≡◌, ◌++◌, IfOk, OnOk, flat_map, map};
ghost use Rattle.std.specs.Option.{option_copied};
ghost use Rattle.tree_base.specs.declared.Tree.{out-Tree};
ghost use Rattle.notes.specs.Attributes.{attribute_notes, entries_below, entries_of, has_key, key_notes, note_of, prefix_of, update_names, deploy_names, use_note, user_name};

use run_lookups::shown;
use std::alloc::Global;
use tree_base::{List, Map, Memory, Text, Tree};
use typed_project::Service;

/// Where an attribute stands.
#[derive(Clone, Copy)]
enum Section {
    /// `deploy`
    Deploy,
    /// `deploy.update_config`
    Updates,
}

/// What has no effect of `deploy`.
static DEPLOY: [&str; 7] = [
    "endpoint_mode",
    "labels",
    "mode",
    "placement",
    "resources",
    "restart_policy",
    "rollback_config",
];

/// What has none of its `update_config`.
static UPDATES: [&str; 5] = [
    "delay",
    "failure_action",
    "max_failure_ratio",
    "monitor",
    "order",
];

fn deploy_names() -> &'static [&'static str]
    ensures { map (λ name. name.now) result.now ≡ deploy_names }
{
    &DEPLOY
}

fn update_names() -> &'static [&'static str]
    ensures { map (λ name. name.now) result.now ≡ update_names }
{
    &UPDATES
}

/// What is said of attributes that are read and have no effect: of each that some service has, which these are.
pub fn attribute_notes(alloc: Global, services: &[Service]) -> Result<List<Text>, Memory>
    ensures { IfOk result (λ notes. notes ≡ attribute_notes services.now) }
{
    let mut notes = List::new(alloc);
    push_notes(alloc, Section::Deploy, deploy_names(), services, &mut notes)?;
    push_notes(
        alloc,
        Section::Updates,
        update_names(),
        services,
        &mut notes,
    )?;
    Ok(notes)
}

fn push_notes(
    alloc: Global,
    section: Section,
    keys: &[&str],
    services: &[Service],
    notes: &mut List<Text>,
) -> Result<(), Memory>
    ensures { OnOk result (notes.new ≡ notes.old
        ++ flat_map (key_notes section services.now) (map (λ key. key.now) keys.now)) }
{
    for key in keys {
        push_note(alloc, section, *key, services, notes)?;
    }
    Ok(())
}

fn push_note(
    alloc: Global,
    section: Section,
    key: &str,
    services: &[Service],
    notes: &mut List<Text>,
) -> Result<(), Memory>
    ensures { OnOk result (notes.new ≡ notes.old ++ key_notes section services.now key.now) }
{
    if let Some(note) = use_note(alloc, section, key, services)? {
        notes.push(note)?;
    }
    Ok(())
}

/// What is said of an attribute, where some service has it.
fn use_note(
    alloc: Global,
    section: Section,
    key: &str,
    services: &[Service],
) -> Result<Option<Text>, Memory>
    ensures { IfOk result (λ note. note ≡ use_note section services.now key.now) }
{
    let users = users(alloc, section, key, services)?;
    note_of(alloc, section, key, users.as_str())
}

/// What is said of an attribute with the services that have it, where there are any.
fn note_of(alloc: Global, section: Section, key: &str, users: &str) -> Result<Option<Text>, Memory>
    ensures { IfOk result (λ note. note ≡ note_of section key.now users.now) }
{
    if users.is_empty() {
        return Ok(None);
    }
    let prefix = prefix_of(section);
    let note = format!(in alloc; "{prefix}{key} has no effect:{users}")?;
    Ok(Some(Text::from_string(note)))
}

fn prefix_of(section: Section) -> &'static str
    ensures { result.now ≡ prefix_of section }
{
    match section {
        Section::Deploy => "deploy.",
        Section::Updates => "deploy.update_config.",
    }
}

/// The keys of the services that have an attribute, each behind a space.
fn users(alloc: Global, section: Section, key: &str, services: &[Service]) -> Result<Text, Memory>
    ensures { IfOk result (λ names. names ≡ flat_map (user_name section key.now) services.now) }
{
    let mut names = Text::new(alloc);
    for service in services {
        push_user(alloc, section, key, service, &mut names)?;
    }
    Ok(names)
}

fn push_user(
    alloc: Global,
    section: Section,
    key: &str,
    service: &Service,
    names: &mut Text,
) -> Result<(), Memory>
    ensures { OnOk result (names.new ≡ names.old ++ user_name section key.now service.now) }
{
    if has_key(section, key, service) {
        let name = shown(alloc, service.key.as_str())?;
        names.push_str(" ")?;
        names.push_str(name.as_str())?;
    }
    Ok(())
}

fn has_key(section: Section, key: &str, service: &Service) -> bool
    ensures { result ≡ has_key section key.now service.now }
{
    match entries_below(section, service) {
        Some(entries) => entries.find(key).is_some(),
        None => false,
    }
}

/// What a service has in a section.
fn entries_below(section: Section, service: &Service) -> Option<&Map>
    ensures { option_copied result ≡ entries_below section service.now }
{
    let deploy = entries_of(service.deploy()?)?;
    match section {
        Section::Deploy => Some(deploy),
        Section::Updates => entries_of(deploy.find("update_config")?),
    }
}

/// The entries of a mapping.
fn entries_of(tree: &Tree) -> Option<&Map>
    ensures { option_copied result ≡ entries_of (out-Tree tree.now) }
{
    match tree {
        Tree::Map(entries) => Some(entries.get()),
        _ => None,
    }
}
