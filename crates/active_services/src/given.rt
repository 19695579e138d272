ghost use Rattle.std.specs.Prelude.{◌≡◌, ◌==◌, ◌++◌, IfOk, OnOk, map};
ghost use Rattle.std.specs.List.{slice_split};
ghost use Rattle.active_services.specs.Profiles.{profiles_given};

use std::alloc::Global;
use tree_base::{Env, List, Memory, Text, TryCopy};

/// The profiles of a call: those of its options `--profile`, and behind them those of the variable `COMPOSE_PROFILES`,
/// which is cut at its commas.
pub fn profiles_given(alloc: Global, options: &List<Text>, env: &Env) -> Result<List<Text>, Memory>
    ensures { IfOk result (λ profiles. profiles ≡ profiles_given options.now env.now) }
{
    let mut profiles = options.copy(alloc)?;
    if let Some(value) = env.find("COMPOSE_PROFILES") {
        push_names(alloc, &mut profiles, value)?;
    }
    Ok(profiles)
}

/// Puts the names in a text, which commas stand between, behind others.
fn push_names(alloc: Global, profiles: &mut List<Text>, value: &Text) -> Result<(), Memory>
    ensures { OnOk result (profiles.new
        ≡ profiles.old ++ slice_split (λ b. b == 44) value.now) }
{
    let names = value.as_str().split(',').collect::<Vec<&str>>(alloc)?;
    push_each(alloc, profiles, names.as_slice())
}

fn push_each(alloc: Global, profiles: &mut List<Text>, names: &[&str]) -> Result<(), Memory>
    ensures { OnOk result (profiles.new
        ≡ profiles.old ++ map (λ name. name.now) names.now) }
{
    for name in names {
        profiles.push(Text::from_str(alloc, name)?)?;
    }
    Ok(())
}
