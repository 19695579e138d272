ghost use Rattle.std.specs.Prelude.{◌≡◌, [], ◌∷◌};
ghost use Rattle.attribute_paths.specs.Patterns.{below_item, below_key, here, named};
ghost use Rattle.file_paths.specs.PathRules.{path_rules};
ghost use Rattle.file_paths.specs.Spots.{item_rules, rules_of, service_rules};

/// As what a path stands in a file.
#[derive(Clone, Copy, PartialEq, Eq, Drop)]
pub enum PathKind {
    /// A text that is a path.
    Text,
    /// A text that is a path where it names no scheme.
    Context,
    /// A mapping that has a path as its source where it is a bind.
    Bind,
}

/// Where in a file a tree stands, as far as paths go.
#[derive(Clone, Copy, Drop)]
pub enum PathSpot {
    /// The whole file.
    Root,
    /// `include`.
    Include,
    /// An item of `include`.
    IncludeItem,
    /// A path, or a list of paths.
    Texts,
    /// All services.
    Services,
    /// A service.
    Service,
    /// A service's mounts.
    Mounts,
    /// What a service is built from.
    Build,
    /// A service's env files.
    EnvFiles,
    /// One of these.
    EnvFile,
    /// What a service extends.
    Extends,
    /// All secrets, or all configs.
    FileItems,
    /// A secret or a config.
    FileItem,
    /// An attribute that has a rule, in which no other has one.
    Ruled(PathKind),
    /// Where no rule holds, and none below.
    Plain,
}

/// What a path is at a spot.
#[tactic(auto, unfolding(crate::specs::PathRules::path_rules, crate::specs::Spots::include_rules, crate::specs::Spots::item_rules, crate::specs::Spots::services_rules, crate::specs::Spots::service_rules, crate::specs::Spots::mounts_rules, crate::specs::Spots::build_rules, crate::specs::Spots::env_files_rules, crate::specs::Spots::env_file_rules, crate::specs::Spots::extends_rules, crate::specs::Spots::files_rules, crate::specs::Spots::file_rules))]
pub(crate) fn kind_at(spot: PathSpot) -> Option<PathKind>
    ensures { result ≡ here (rules_of spot) }
{
    match spot {
        PathSpot::IncludeItem => Some(PathKind::Text),
        PathSpot::Texts => Some(PathKind::Text),
        PathSpot::EnvFiles => Some(PathKind::Text),
        PathSpot::EnvFile => Some(PathKind::Text),
        PathSpot::Ruled(kind) => Some(kind),
        PathSpot::Root => None,
        PathSpot::Include => None,
        PathSpot::Services => None,
        PathSpot::Service => None,
        PathSpot::Mounts => None,
        PathSpot::Build => None,
        PathSpot::Extends => None,
        PathSpot::FileItems => None,
        PathSpot::FileItem => None,
        PathSpot::Plain => None,
    }
}

/// The spot of each item.
#[tactic(auto, unfolding(crate::specs::PathRules::path_rules, crate::specs::Spots::include_rules, crate::specs::Spots::item_rules, crate::specs::Spots::services_rules, crate::specs::Spots::service_rules, crate::specs::Spots::mounts_rules, crate::specs::Spots::build_rules, crate::specs::Spots::env_files_rules, crate::specs::Spots::env_file_rules, crate::specs::Spots::extends_rules, crate::specs::Spots::files_rules, crate::specs::Spots::file_rules))]
pub(crate) fn spot_of_items(spot: PathSpot) -> PathSpot
    ensures { rules_of result ≡ below_item (rules_of spot) }
{
    match spot {
        PathSpot::Include => PathSpot::IncludeItem,
        PathSpot::Texts => PathSpot::Ruled(PathKind::Text),
        PathSpot::Mounts => PathSpot::Ruled(PathKind::Bind),
        PathSpot::EnvFiles => PathSpot::EnvFile,
        PathSpot::Root => PathSpot::Plain,
        PathSpot::IncludeItem => PathSpot::Plain,
        PathSpot::Services => PathSpot::Plain,
        PathSpot::Service => PathSpot::Plain,
        PathSpot::Build => PathSpot::Plain,
        PathSpot::EnvFile => PathSpot::Plain,
        PathSpot::Extends => PathSpot::Plain,
        PathSpot::FileItems => PathSpot::Plain,
        PathSpot::FileItem => PathSpot::Plain,
        PathSpot::Ruled(_) => PathSpot::Plain,
        PathSpot::Plain => PathSpot::Plain,
    }
}

/// The spot under a key.
#[tactic(auto, unfolding(crate::specs::PathRules::path_rules, crate::specs::Spots::include_rules, crate::specs::Spots::item_rules, crate::specs::Spots::services_rules, crate::specs::Spots::service_rules, crate::specs::Spots::mounts_rules, crate::specs::Spots::build_rules, crate::specs::Spots::env_files_rules, crate::specs::Spots::env_file_rules, crate::specs::Spots::extends_rules, crate::specs::Spots::files_rules, crate::specs::Spots::file_rules))]
pub(crate) fn spot_below(spot: PathSpot, key: &str) -> PathSpot
    ensures { rules_of result ≡ below_key key.now (rules_of spot) }
{
    match spot {
        PathSpot::Root => spot_in_file(key),
        PathSpot::IncludeItem => spot_in_item(key),
        PathSpot::Services => PathSpot::Service,
        PathSpot::Service => spot_in_service(key),
        PathSpot::Build => spot_at(key, "context", PathKind::Context),
        PathSpot::EnvFile => spot_at(key, "path", PathKind::Text),
        PathSpot::Extends => spot_at(key, "file", PathKind::Text),
        PathSpot::FileItems => PathSpot::FileItem,
        PathSpot::FileItem => spot_at(key, "file", PathKind::Text),
        PathSpot::Include => PathSpot::Plain,
        PathSpot::Texts => PathSpot::Plain,
        PathSpot::Mounts => PathSpot::Plain,
        PathSpot::EnvFiles => PathSpot::Plain,
        PathSpot::Ruled(_) => PathSpot::Plain,
        PathSpot::Plain => PathSpot::Plain,
    }
}

/// The spot of a key where one name alone has a rule.
fn spot_at(key: &str, name: &str, kind: PathKind) -> PathSpot
    ensures { rules_of result ≡ below_key key.now ((named name.now ∷ [], kind) ∷ []) }
{
    if name == key {
        PathSpot::Ruled(kind)
    } else {
        PathSpot::Plain
    }
}

/// The spot of an element of the file.
#[tactic(auto, unfolding(crate::specs::PathRules::path_rules, crate::specs::Spots::include_rules, crate::specs::Spots::services_rules, crate::specs::Spots::files_rules))]
fn spot_in_file(key: &str) -> PathSpot
    ensures { rules_of result ≡ below_key key.now path_rules }
{
    match key {
        "include" => PathSpot::Include,
        "services" => PathSpot::Services,
        "secrets" => PathSpot::FileItems,
        "configs" => PathSpot::FileItems,
        _ => PathSpot::Plain,
    }
}

/// The spot of what an item of `include` has.
#[tactic(auto, unfolding(crate::specs::PathRules::path_rules, crate::specs::Spots::include_rules, crate::specs::Spots::item_rules))]
fn spot_in_item(key: &str) -> PathSpot
    ensures { rules_of result ≡ below_key key.now item_rules }
{
    match key {
        "path" => PathSpot::Texts,
        "project_directory" => PathSpot::Ruled(PathKind::Text),
        "env_file" => PathSpot::Texts,
        _ => PathSpot::Plain,
    }
}

/// The spot of a service's attribute.
#[tactic(auto, unfolding(crate::specs::PathRules::path_rules, crate::specs::Spots::services_rules, crate::specs::Spots::service_rules, crate::specs::Spots::mounts_rules, crate::specs::Spots::build_rules, crate::specs::Spots::env_files_rules, crate::specs::Spots::extends_rules))]
fn spot_in_service(key: &str) -> PathSpot
    ensures { rules_of result ≡ below_key key.now service_rules }
{
    match key {
        "volumes" => PathSpot::Mounts,
        "build" => PathSpot::Build,
        "env_file" => PathSpot::EnvFiles,
        "extends" => PathSpot::Extends,
        _ => PathSpot::Plain,
    }
}
