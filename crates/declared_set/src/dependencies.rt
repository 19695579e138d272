ghost use Rattle.std.specs.Prelude.{◌≡◌, ◌++◌, IfOk, OnOk, codes};
ghost use Rattle.std.specs.List.{flat_map, join_by};
ghost use Rattle.declared_set.specs.Labels.{dependency_text, depends_on_text, restart_word};
ghost use Rattle.project_pages.specs.AttributePages.{condition_word};

use attribute_types::{Dependency, DependencyCondition};
use std::alloc::Global;
use tree_base::{Memory, Text};
use typed_project::Service;

/// What a service depends on, as Docker Compose's label has it: `KEY:CONDITION:RESTART` of each dependency, with commas between
/// them. Empty where it depends on nothing.
pub(crate) fn depends_on_text(alloc: Global, service: &Service) -> Result<Text, Memory>
    ensures { IfOk result (λ text. text ≡ depends_on_text service.now) }
{
    let mut text = Text::new(alloc);
    if let Some(dependencies) = service.depends_on() {
        push_all(&mut text, dependencies.as_slice())?;
    }
    Ok(text)
}

fn push_all(text: &mut Text, dependencies: &[Dependency]) -> Result<(), Memory>
    ensures { OnOk result (text.new
        ≡ text.old ++ join_by dependency_text (codes ",") dependencies.now) }
{
    match dependencies {
        [first, later @ ..] => {
            push_one(text, first)?;
            push_later(text, later)?;
        }
        [] => {}
    }
    Ok(())
}

fn push_later(text: &mut Text, dependencies: &[Dependency]) -> Result<(), Memory>
    ensures { OnOk result (text.new ≡ text.old
        ++ flat_map (λ later. codes "," ++ dependency_text later) dependencies.now) }
{
    for dependency in dependencies {
        text.push_str(",")?;
        push_one(text, dependency)?;
    }
    Ok(())
}

fn push_one(text: &mut Text, dependency: &Dependency) -> Result<(), Memory>
    ensures { OnOk result (text.new ≡ text.old ++ dependency_text dependency.now) }
{
    text.push_str(dependency.key.as_str())?;
    text.push_str(":")?;
    text.push_str(condition_word(dependency.condition))?;
    text.push_str(":")?;
    text.push_str(restart_word(dependency.restart))
}

/// The word of what is waited for. No memory.
fn condition_word(condition: DependencyCondition) -> &'static str
    ensures { result.now ≡ condition_word condition }
{
    match condition {
        DependencyCondition::Started => "service_started",
        DependencyCondition::Healthy => "service_healthy",
        DependencyCondition::Completed => "service_completed_successfully",
    }
}

fn restart_word(restart: bool) -> &'static str
    ensures { result.now ≡ restart_word restart }
{
    if restart { "true" } else { "false" }
}
