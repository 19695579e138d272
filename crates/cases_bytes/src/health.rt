use crate::values::{integer_if, pairs_if, text_if, texts_if};
use case_files::{Fields, Reading};
use engine_types::{Healthcheck, LogConfig, RestartPolicy};

/// The health check under `healthcheck`: its `test`, and `interval`, `timeout` and `start_period` in nanoseconds, and
/// `retries`; None where the key isn't there.
pub(crate) fn healthcheck_if(reading: &mut Reading, fields: &Fields) -> Option<Healthcheck> {
    let check = reading.fields(fields, "healthcheck")?;
    Some(Healthcheck {
        test: texts_if(reading, &check, "test"),
        interval: integer_if(reading, &check, "interval"),
        timeout: integer_if(reading, &check, "timeout"),
        start_period: integer_if(reading, &check, "start_period"),
        retries: integer_if(reading, &check, "retries"),
    })
}

/// How the logs are kept, under `log_config`: its `kind` and `config`; None where the key isn't there.
pub(crate) fn log_config_if(reading: &mut Reading, fields: &Fields) -> Option<LogConfig> {
    let logging = reading.fields(fields, "log_config")?;
    Some(LogConfig {
        kind: text_if(reading, &logging, "kind"),
        config: pairs_if(reading, &logging, "config"),
    })
}

/// When a container is started again, under `restart_policy`: its `name` and `maximum_retry_count`; None where the key
/// isn't there.
pub(crate) fn restart_policy_if(reading: &mut Reading, fields: &Fields) -> Option<RestartPolicy> {
    let policy = reading.fields(fields, "restart_policy")?;
    Some(RestartPolicy {
        name: reading.text_at(&policy, "name"),
        maximum_retry_count: integer_if(reading, &policy, "maximum_retry_count"),
    })
}
