ghost use Rattle.std.specs.Prelude.{◌≡◌, false, IfOk};
ghost use Rattle.std.specs.Option.{option_map};
ghost use Rattle.attribute_types.specs.Lookups.{health_at};
ghost use Rattle.std.specs.Prelude.{codes};
ghost use Rattle.container_specs.specs.Health.{healthcheck_of};

use crate::numbers::{nanoseconds, signed_option};
use attribute_types::HealthCheck;
use engine_types::Healthcheck;
use std::alloc::Global;
use tree_base::{Memory, TryCopy};
use typed_project::Service;

/// How the health of a service's container is asked, where the service says so.
pub(crate) fn healthcheck_of(
    alloc: Global,
    service: &Service,
) -> Result<Option<Healthcheck>, Memory>
    ensures { IfOk result (λ check.
        check ≡ option_map healthcheck_of (health_at service.now.attributes (codes "healthcheck"))) }
{
    match service.healthcheck() {
        Some(check) => Ok(Some(check_of(alloc, check)?)),
        None => Ok(None),
    }
}

/// A health check with its durations in nanoseconds.
fn check_of(alloc: Global, check: &HealthCheck) -> Result<Healthcheck, Memory>
    ensures { IfOk result (λ made. made ≡ healthcheck_of check.now) }
{
    Ok(Healthcheck {
        test: check.test.copy(alloc)?,
        interval: nanoseconds(check.interval),
        timeout: nanoseconds(check.timeout),
        start_period: nanoseconds(check.start_period),
        retries: signed_option(check.retries),
    })
}
