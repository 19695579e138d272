ghost use Rattle.std.specs.Prelude.{◌≡◌, ◌∷◌, ◌++◌, [], IfOk, OnOk, map, unwrap_or};
ghost use Rattle.std.specs.List.{IsDistinct};
ghost use Rattle.std.specs.Option.{option_copied};
ghost use Rattle.std.specs.Str.{bytes_eq};
ghost use Rattle.tree_base.specs.ByteOrder.{by_key};
ghost use Rattle.tree_base.specs.Entries.{HasDistinctKeys, with_entry};
ghost use Rattle.engine_types.specs.Labels.{project_label};
ghost use Rattle.declared_resources.specs.Resources.{declared_labels, label_entry, variable_of};

use attribute_types::Pairs;
use engine_types::labels;
use std::alloc::Global;
use tree_base::{Env, List, Memory, Text, TextMap, Var};

/// The labels of what a project declares: its own, and those by which it is known to be the project's, of the kind under which
/// its key stands.
pub(crate) fn declared_labels(
    alloc: Global,
    project: &Text,
    kind: &str,
    key: &Text,
    own: Option<&Pairs>,
) -> Result<List<Var>, Memory>
    ensures { IfOk result (λ labels. labels
        ≡ declared_labels project.now kind.now key.now (unwrap_or (option_copied own.entry) [])) }
{
    let mut labels = own_labels(alloc, own)?;
    put_label(alloc, &mut labels, labels::PROJECT, project.as_str())?;
    put_label(alloc, &mut labels, kind, key.as_str())?;
    in_byte_order(variables_of(alloc, &labels)?)
}

/// The labels that are given, of which a null is the empty text.
pub fn own_labels(alloc: Global, own: Option<&Pairs>) -> Result<Env, Memory>
    ensures { IfOk result (λ labels.
        labels ≡ map label_entry (unwrap_or (option_copied own.entry) [])) }
{
    match own {
        Some(pairs) => label_entries(alloc, pairs),
        None => Ok(TextMap::new(alloc)),
    }
}

/// Pairs with the empty text for each null.
pub fn label_entries(alloc: Global, pairs: &Pairs) -> Result<Env, Memory>
    ensures { IfOk result (λ labels. labels ≡ map label_entry pairs.now) }
{
    let texts = label_texts(alloc, pairs.values())?;
    pairs.with_values(alloc, texts)
}

/// Texts, with the empty text where there is none.
fn label_texts(alloc: Global, values: &[Option<Text>]) -> Result<List<Text>, Memory>
    ensures { IfOk result (λ texts. texts ≡ map (λ value. unwrap_or value []) values.now) }
{
    let mut texts = List::new(alloc);
    for value in values {
        texts.push(label_text(alloc, value)?)?;
    }
    Ok(texts)
}

fn label_text(alloc: Global, value: &Option<Text>) -> Result<Text, Memory>
    ensures { IfOk result (λ text. text ≡ unwrap_or value.now []) }
{
    match value {
        Some(text) => text.copy(alloc),
        None => Ok(Text::new(alloc)),
    }
}

/// Puts a label in place of the one of its name.
pub fn put_label(alloc: Global, labels: &mut Env, name: &str, value: &str) -> Result<(), Memory>
    ensures { OnOk result (labels.new ≡ with_entry labels.old name.now value.now) }
{
    let name = Text::from_str(alloc, name)?;
    let value = Text::from_str(alloc, value)?;
    labels.put(name, value)?;
    Ok(())
}

/// The entries of a map as names with their values, which differ in their names.
pub fn variables_of(alloc: Global, entries: &Env) -> Result<Vec<Var>, Memory>
    ensures value { IfOk result (λ variables. variables.items ≡ map variable_of entries.now) }
    ensures distinct { HasDistinctKeys entries.now }
{
    let mut variables = Vec::new(alloc);
    for at in 0..entries.len() {
        if let Some((name, value)) = entries.pair(at) {
            push_variable(alloc, &mut variables, name, value)?;
        }
    }
    Ok(variables)
}

fn push_variable(
    alloc: Global,
    variables: &mut Vec<Var>,
    name: &Text,
    value: &Text,
) -> Result<(), Memory>
    ensures { OnOk result (variables.new.items ≡
        variables.old.items ++ (record { name = name.now; value = value.now }) ∷ []) }
{
    let name = name.copy(alloc)?;
    let value = value.copy(alloc)?;
    variables.push(Var { name, value })?;
    Ok(())
}

/// Variables whose names differ, in byte order of these.
pub fn in_byte_order(variables: Vec<Var>) -> Result<List<Var>, Memory>
    requires { IsDistinct bytes_eq (map (λ variable. variable.name) variables.items) }
    ensures { IfOk result (λ sorted. sorted ≡ by_key (λ variable. variable.name) variables.items) }
{
    let mut sorted = variables;
    sorted.sort_by(|one, other| one.name.cmp(&other.name))?;
    Ok(List::from_vec(sorted))
}
