ghost use Rattle.std.specs.Prelude.{◌≡◌, option_map};
ghost use Rattle.response_rules.specs.Replies.{health_by, report_in};
ghost use Rattle.serde_json.specs.View.{view};

use crate::fields::text_at;
use crate::words::{health_named, state_of};
use engine_types::{Health, Report};
use serde_json::Value;

/// The `State` of `GET /containers/{id}/json`: `Status`, `ExitCode` and `Health.Status`; None where it has another form.
pub(crate) fn report_in(value: &Value) -> Option<Report>
    ensures { result ≡ report_in (view value.now) }
{
    let state = state_of(text_at(value, "Status")?)?;
    let exit_code = value.get("ExitCode")?.as_i64()?;
    let health = health_by(value.get("Health"))?;
    Some(Report {
        state,
        exit_code,
        health,
    })
}

/// The health of a state: `Absent` where `Health` isn't there or is null, else by the word at `Health.Status`.
fn health_by(found: Option<&Value>) -> Option<Health>
    ensures { result ≡ health_by (option_map (λ value. view value.now) found.entry) }
{
    match found {
        None | Some(Value::Null) => Some(Health::Absent),
        Some(value) => health_named(text_at(value, "Status")?),
    }
}
