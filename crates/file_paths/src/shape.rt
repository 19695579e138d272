ghost use Rattle.std.specs.Prelude.{◌≡◌, ◌∷◌, [], IfOk, filter, is_some, map, unwrap_or};
ghost use Rattle.std.specs.Option.{option_map, option_to_list};
ghost use Rattle.file_paths.specs.Resolving.{Entries};
ghost use Rattle.file_paths.specs.Shapes.{faulty_path, fits, has_if, is_faulty, or_null, other_form, service_fault, service_forms, services_fault, shape_fault, top_forms};
ghost use Rattle.tree_base.specs.ByteOrder.{least_by};
ghost use Rattle.tree_base.specs.declared.Step.TheVariants.{Key};
ghost use Rattle.tree_base.specs.declared.Tree.{out-Tree};
ghost use Rattle.tree_base.specs.declared.Tree.TheOpen.{Tree-F};

use crate::form::{Form, fits, is_null};
use std::alloc::Global;
use tree_base::{List, Map, Memory, Path, Step, Text, Tree};

/// The path to the first part of a model's tree that has another form than it has to have; None where all is right.
/// `Memory` where there is none.
///
/// The root comes first, then `name`, `services`, `networks`, `volumes`, `secrets`, `configs` and `include`; then, by
/// service in byte order, the service itself, and `depends_on`, `env_file`, `environment`, `extends` and `profiles`.
pub fn shape_fault(alloc: Global, tree: &Tree) -> Result<Option<Path>, Memory>
    ensures { IfOk result (λ path. path ≡ shape_fault (out-Tree tree.now)) }
{
    match tree {
        Tree::Null => Ok(None),
        Tree::Map(entries) => fault_in(alloc, entries.get()),
        _ => Ok(Some(List::new(alloc))),
    }
}

fn fault_in(alloc: Global, entries: &Map) -> Result<Option<Path>, Memory>
    ensures { IfOk result (λ path. path ≡ shape_fault (Tree-F.Map entries.now)) }
{
    match other_element(entries) {
        Some(key) => Ok(Some(path_to(alloc, key)?)),
        None => match entries.find("services") {
            Some(Tree::Map(services)) => services_fault(alloc, services.get()),
            _ => Ok(None),
        },
    }
}

/// The path of one key.
fn path_to(alloc: Global, key: &str) -> Result<Path, Memory>
    ensures { IfOk result (λ path. path ≡ Key key.now ∷ []) }
{
    let mut path = List::new(alloc);
    path.push(Step::Key(Text::from_str(alloc, key)?))?;
    Ok(path)
}

/// The first element of a file that has another form.
fn other_element(entries: &Map) -> Option<&'static str>
    ensures { option_map (λ key. key.now) result ≡ other_form top_forms entries.now }
{
    if !is_right(entries, "name", Form::Text) {
        Some("name")
    } else if !is_right(entries, "services", Form::Section) {
        Some("services")
    } else if !is_right(entries, "networks", Form::Section) {
        Some("networks")
    } else if !is_right(entries, "volumes", Form::Section) {
        Some("volumes")
    } else if !is_right(entries, "secrets", Form::Section) {
        Some("secrets")
    } else if !is_right(entries, "configs", Form::Section) {
        Some("configs")
    } else if !is_right(entries, "include", Form::Includes) {
        Some("include")
    } else {
        None
    }
}

/// Whether what stands at a key, if anything, is null or has a form.
fn is_right(entries: &Map, key: &str, form: Form) -> bool
    ensures { result ≡ has_if key.now (or_null (fits form)) entries.now }
{
    match entries.find(key) {
        Some(tree) => is_null(tree) || fits(form, tree),
        None => true,
    }
}

/// The path in the first service, in byte order, of those that have another form.
fn services_fault(alloc: Global, services: &Map) -> Result<Option<Path>, Memory>
    ensures { IfOk result (λ path. path ≡ services_fault services.now) }
{
    match least_faulty(services) {
        Some((name, service)) => Ok(Some(faulty_path(alloc, name, service)?)),
        None => Ok(None),
    }
}

/// The first service, in byte order, of those that have another form. The services are gone through from the last one.
fn least_faulty(services: &Map) -> Option<(&Text, &Tree)>
    ensures { option_map (λ service. (service.0.now, service.1.now)) result
        ≡ least_by (λ entry. entry.0) (filter is_faulty services.now) }
{
    let mut least = None;
    let mut left = services.len();
    while left > 0 {
        left -= 1;
        if let Some((name, service)) = services.pair(left) {
            least = lesser_faulty(name, service, least);
        }
    }
    least
}

/// Of a service and the least faulty one of those behind it the least faulty one.
fn lesser_faulty<'a>(
    name: &'a Text,
    service: &'a Tree,
    behind: Option<(&'a Text, &'a Tree)>,
) -> Option<(&'a Text, &'a Tree)>
    ensures { (more : Entries)
        → option_map (λ service. (service.0.now, service.1.now)) behind.entry
        ≡ least_by (λ entry. entry.0) (filter is_faulty more)
        → option_map (λ service. (service.0.now, service.1.now)) result
        ≡ least_by (λ entry. entry.0) (filter is_faulty ((name.now, service.now) ∷ more)) }
{
    if !is_faulty(service) {
        return behind;
    }
    match behind {
        Some((other, tree)) if other < name => Some((other, tree)),
        _ => Some((name, service)),
    }
}

/// Whether a service has another form, or an attribute of it.
fn is_faulty(service: &Tree) -> bool
    ensures { result ≡ is_some (service_fault (out-Tree service.now)) }
{
    match service {
        Tree::Map(attributes) => other_attribute(attributes.get()).is_some(),
        _ => true,
    }
}

/// The first attribute of a service that has another form.
fn other_attribute(attributes: &Map) -> Option<&'static str>
    ensures { option_map (λ key. key.now) result ≡ other_form service_forms attributes.now }
{
    if !is_right(attributes, "depends_on", Form::Needs) {
        Some("depends_on")
    } else if !is_right(attributes, "env_file", Form::EnvFiles) {
        Some("env_file")
    } else if !is_right(attributes, "environment", Form::Settings) {
        Some("environment")
    } else if !is_right(attributes, "extends", Form::Extends) {
        Some("extends")
    } else if !is_right(attributes, "profiles", Form::Texts) {
        Some("profiles")
    } else {
        None
    }
}

/// The path in a service that has another form.
fn faulty_path(alloc: Global, name: &Text, service: &Tree) -> Result<Path, Memory>
    ensures { IfOk result (λ path. path ≡ faulty_path (name.now, service.now)) }
{
    let mut path = path_to(alloc, "services")?;
    path.push(Step::Key(name.copy(alloc)?))?;
    if let Some(attribute) = attribute_fault(service) {
        path.push(Step::Key(Text::from_str(alloc, attribute)?))?;
    }
    Ok(path)
}

/// The attribute that has another form, where the service itself has its own.
fn attribute_fault(service: &Tree) -> Option<&'static str>
    ensures { unwrap_or (service_fault (out-Tree service.now)) []
        ≡ map Key (option_to_list (option_map (λ key. key.now) result)) }
{
    match service {
        Tree::Map(attributes) => other_attribute(attributes.get()),
        _ => None,
    }
}
