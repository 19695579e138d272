ghost use Rattle.std.specs.Prelude.{◌≡◌};
ghost use Rattle.attribute_paths.specs.Patterns.{below_key, here};
ghost use Rattle.merge_tables.specs.Spots.{forms_of, resource_forms, service_forms};

use crate::rules::{EntryForm, PairForm, ShortForm};

/// Where in a file a tree stands, as far as short forms go.
#[derive(Clone, Copy, Drop)]
pub enum ShortSpot {
    /// The whole file.
    Root,
    /// All services.
    Services,
    /// A service.
    Service,
    /// What a service is built from.
    Build,
    /// A service's health check.
    Healthcheck,
    /// All networks, or all volumes.
    Resources,
    /// A network or a volume.
    Resource,
    /// An attribute with a short form, in which no other has one.
    Formed(ShortForm),
    /// Where nothing has a short form, nor anything below.
    Plain,
}

/// The short form at a spot.
#[tactic(auto, unfolding(crate::specs::Attributes::short_rules, crate::specs::Spots::services_forms, crate::specs::Spots::service_forms, crate::specs::Spots::build_forms, crate::specs::Spots::healthcheck_forms, crate::specs::Spots::resources_forms, crate::specs::Spots::resource_forms))]
pub fn form_at(spot: ShortSpot) -> Option<ShortForm>
    ensures { result ≡ here (forms_of spot) }
{
    match spot {
        ShortSpot::Root => None,
        ShortSpot::Services => None,
        ShortSpot::Service => None,
        ShortSpot::Build => Some(ShortForm::Context),
        ShortSpot::Healthcheck => None,
        ShortSpot::Resources => None,
        ShortSpot::Resource => None,
        ShortSpot::Formed(form) => Some(form),
        ShortSpot::Plain => None,
    }
}

/// The spot under a key.
#[tactic(auto, unfolding(crate::specs::Attributes::short_rules, crate::specs::Spots::services_forms, crate::specs::Spots::service_forms, crate::specs::Spots::build_forms, crate::specs::Spots::healthcheck_forms, crate::specs::Spots::resources_forms, crate::specs::Spots::resource_forms))]
pub fn short_spot_below(spot: ShortSpot, key: &str) -> ShortSpot
    ensures { forms_of result ≡ below_key key.now (forms_of spot) }
{
    match spot {
        ShortSpot::Root => match key {
            "services" => ShortSpot::Services,
            "networks" => ShortSpot::Resources,
            "volumes" => ShortSpot::Resources,
            _ => ShortSpot::Plain,
        },
        ShortSpot::Services => ShortSpot::Service,
        ShortSpot::Service => short_spot_in_service(key),
        ShortSpot::Build => match key {
            "args" => ShortSpot::Formed(ShortForm::Mapping(PairForm::KeyValue)),
            _ => ShortSpot::Plain,
        },
        ShortSpot::Healthcheck => match key {
            "test" => ShortSpot::Formed(ShortForm::Test),
            _ => ShortSpot::Plain,
        },
        ShortSpot::Resources => ShortSpot::Resource,
        ShortSpot::Resource => short_spot_in_resource(key),
        ShortSpot::Formed(_) => ShortSpot::Plain,
        ShortSpot::Plain => ShortSpot::Plain,
    }
}

/// The spot of an attribute of a network or a volume.
#[tactic(auto, unfolding(crate::specs::Attributes::short_rules, crate::specs::Spots::resources_forms, crate::specs::Spots::resource_forms))]
fn short_spot_in_resource(key: &str) -> ShortSpot
    ensures { forms_of result ≡ below_key key.now resource_forms }
{
    match key {
        "labels" => ShortSpot::Formed(ShortForm::Mapping(PairForm::KeyValue)),
        "driver_opts" => ShortSpot::Formed(ShortForm::Mapping(PairForm::KeyValue)),
        _ => ShortSpot::Plain,
    }
}

/// The spot of a service's attribute.
#[tactic(auto, unfolding(crate::specs::Attributes::short_rules, crate::specs::Spots::services_forms, crate::specs::Spots::service_forms, crate::specs::Spots::build_forms, crate::specs::Spots::healthcheck_forms))]
fn short_spot_in_service(key: &str) -> ShortSpot
    ensures { forms_of result ≡ below_key key.now service_forms }
{
    match key {
        "build" => ShortSpot::Build,
        "healthcheck" => ShortSpot::Healthcheck,
        "environment" => ShortSpot::Formed(ShortForm::Mapping(PairForm::KeyValue)),
        "labels" => ShortSpot::Formed(ShortForm::Mapping(PairForm::KeyValue)),
        "sysctls" => ShortSpot::Formed(ShortForm::Mapping(PairForm::KeyValue)),
        "extra_hosts" => ShortSpot::Formed(ShortForm::Mapping(PairForm::Host)),
        "depends_on" => ShortSpot::Formed(ShortForm::Mapping(PairForm::Name)),
        "networks" => ShortSpot::Formed(ShortForm::Mapping(PairForm::Name)),
        "ports" => ShortSpot::Formed(ShortForm::Entries(EntryForm::Port)),
        "volumes" => ShortSpot::Formed(ShortForm::Entries(EntryForm::Mount)),
        "secrets" => ShortSpot::Formed(ShortForm::Entries(EntryForm::File)),
        "configs" => ShortSpot::Formed(ShortForm::Entries(EntryForm::File)),
        "command" => ShortSpot::Formed(ShortForm::Words),
        "entrypoint" => ShortSpot::Formed(ShortForm::Words),
        "cap_add" => ShortSpot::Formed(ShortForm::OneText),
        "cap_drop" => ShortSpot::Formed(ShortForm::OneText),
        "security_opt" => ShortSpot::Formed(ShortForm::OneText),
        "group_add" => ShortSpot::Formed(ShortForm::OneText),
        "dns" => ShortSpot::Formed(ShortForm::OneText),
        "dns_search" => ShortSpot::Formed(ShortForm::OneText),
        "dns_opt" => ShortSpot::Formed(ShortForm::OneText),
        "devices" => ShortSpot::Formed(ShortForm::OneText),
        "expose" => ShortSpot::Formed(ShortForm::OneText),
        "tmpfs" => ShortSpot::Formed(ShortForm::OneText),
        "profiles" => ShortSpot::Formed(ShortForm::OneText),
        "env_file" => ShortSpot::Formed(ShortForm::OneText),
        _ => ShortSpot::Plain,
    }
}
