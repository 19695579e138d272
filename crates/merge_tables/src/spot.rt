ghost use Rattle.std.specs.Prelude.{◌≡◌};
ghost use Rattle.attribute_paths.specs.Patterns.{below_key, here};
ghost use Rattle.merge_tables.specs.Spots.{rules_of, service_rules};

use crate::rules::{EntryKind, Joining};

/// Where in a file a tree stands, as far as the joining of sequences goes.
#[derive(Clone, Copy, Drop)]
pub enum Spot {
    /// The whole file.
    Root,
    /// All services.
    Services,
    /// A service.
    Service,
    /// A service's health check.
    Healthcheck,
    /// An attribute that has a rule of its own.
    Ruled(Joining),
    /// Where no rule holds, and none below.
    Plain,
}

/// How sequences are joined at a spot.
#[tactic(auto, unfolding(crate::specs::Attributes::overlay_rules, crate::specs::Spots::services_rules, crate::specs::Spots::service_rules, crate::specs::Spots::healthcheck_rules))]
pub fn joining_at(spot: Spot) -> Option<Joining>
    ensures { result ≡ here (rules_of spot) }
{
    match spot {
        Spot::Root => None,
        Spot::Services => None,
        Spot::Service => None,
        Spot::Healthcheck => None,
        Spot::Ruled(joining) => Some(joining),
        Spot::Plain => None,
    }
}

/// The spot under a key.
#[tactic(auto, unfolding(crate::specs::Attributes::overlay_rules, crate::specs::Spots::services_rules, crate::specs::Spots::service_rules, crate::specs::Spots::healthcheck_rules))]
pub fn spot_below(spot: Spot, key: &str) -> Spot
    ensures { rules_of result ≡ below_key key.now (rules_of spot) }
{
    match spot {
        Spot::Root => match key {
            "services" => Spot::Services,
            _ => Spot::Plain,
        },
        Spot::Services => Spot::Service,
        Spot::Service => spot_in_service(key),
        Spot::Healthcheck => match key {
            "test" => Spot::Ruled(Joining::Replaced),
            _ => Spot::Plain,
        },
        Spot::Ruled(_) => Spot::Plain,
        Spot::Plain => Spot::Plain,
    }
}

/// The spot of a service's attribute.
#[tactic(auto, unfolding(crate::specs::Attributes::overlay_rules, crate::specs::Spots::services_rules, crate::specs::Spots::service_rules, crate::specs::Spots::healthcheck_rules))]
fn spot_in_service(key: &str) -> Spot
    ensures { rules_of result ≡ below_key key.now service_rules }
{
    match key {
        "command" => Spot::Ruled(Joining::Replaced),
        "entrypoint" => Spot::Ruled(Joining::Replaced),
        "healthcheck" => Spot::Healthcheck,
        "ports" => Spot::Ruled(Joining::Unique(EntryKind::Port)),
        "volumes" => Spot::Ruled(Joining::Unique(EntryKind::Mount)),
        "secrets" => Spot::Ruled(Joining::Unique(EntryKind::Secret)),
        "configs" => Spot::Ruled(Joining::Unique(EntryKind::Config)),
        _ => Spot::Plain,
    }
}
