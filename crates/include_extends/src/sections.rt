ghost use Rattle.std.specs.Prelude.{◌≡◌, ℕ, Err, IfOk, List, OnOk, false, is_some, true};
ghost use Rattle.file_paths.specs.Shapes.{entries_at, entries_in};
ghost use Rattle.include_extends.specs.Sections.{added, added_to, section_added, sections, sections_added};
ghost use Rattle.loaded_files.specs.Reads.{IsGiven};
ghost use Rattle.loaded_files.specs.declared.refusal.LoadRefusal.{LoadRefusal};
ghost use Rattle.tree_base.specs.Entries.{value_at, with_entry};
ghost use Rattle.tree_base.specs.declared.Tree.{Tree, out-Tree};

use crate::services::bounded;
use loaded_files::{Kind, LoadRefusal, entries_at, entries_in};
use std::alloc::Global;
use tree_base::{Map, Memory, Text, TextMap, Tree};

/// A tree with what an included file's tree declares, within the limits.
pub(crate) fn added_to(
    alloc: Global,
    file: &Text,
    theirs: &Tree,
    tree: Tree,
) -> Result<Tree, LoadRefusal>
    ensures given { IsGiven result (added_to file.now theirs.now tree) }
    ensures fault { (at : List ℕ) → result ≡ Err (LoadRefusal.ReadFault at) → ⊥ }
{
    let top = into_entries(alloc, tree)?;
    let declared = entries_in(alloc, theirs)?;
    let all = sections_added(alloc, file, &declared, top)?;
    bounded(alloc, file, Tree::mapping(alloc, all)?)
}

/// The entries of a mapping, none of another tree.
fn into_entries(alloc: Global, tree: Tree) -> Result<Map, Memory>
    ensures { IfOk result (λ entries. entries ≡ entries_in (out-Tree tree)) }
{
    match tree {
        Tree::Map(entries) => entries.take(alloc),
        other => {
            drop(other);
            Ok(TextMap::new(alloc))
        }
    }
}

/// Elements with what another file declares, kind by kind.
fn sections_added(alloc: Global, file: &Text, theirs: &Map, top: Map) -> Result<Map, LoadRefusal>
    ensures given { IsGiven result (sections_added file.now sections theirs.now top) }
    ensures fault { (at : List ℕ) → result ≡ Err (LoadRefusal.ReadFault at) → ⊥ }
{
    let top = section_added(alloc, file, "services", Kind::Service, theirs, top)?;
    let top = section_added(alloc, file, "networks", Kind::Network, theirs, top)?;
    let top = section_added(alloc, file, "volumes", Kind::Volume, theirs, top)?;
    let top = section_added(alloc, file, "secrets", Kind::Secret, theirs, top)?;
    section_added(alloc, file, "configs", Kind::Config, theirs, top)
}

/// Elements with what another file declares of a kind.
fn section_added(
    alloc: Global,
    file: &Text,
    section: &str,
    kind: Kind,
    theirs: &Map,
    top: Map,
) -> Result<Map, LoadRefusal>
    ensures given { IsGiven result (section_added file.now (section.now, kind)
        (entries_at section.now theirs.now) top) }
    ensures fault { (at : List ℕ) → result ≡ Err (LoadRefusal.ReadFault at) → ⊥ }
{
    let declared = entries_at(alloc, theirs, section)?;
    if declared.is_empty() {
        return Ok(top);
    }
    let mine = entries_at(alloc, &top, section)?;
    let all = added(alloc, file, kind, &declared, mine)?;
    Ok(put_section(alloc, section, top, all)?)
}

/// Elements with these entries as a section.
fn put_section(alloc: Global, section: &str, top: Map, entries: Map) -> Result<Map, Memory>
    ensures { IfOk result (λ all. all ≡ with_entry top section.now (Tree.Map entries)) }
{
    let mut all = top;
    let key = Text::from_str(alloc, section)?;
    drop(all.put(key, Tree::mapping(alloc, entries)?)?);
    Ok(all)
}

/// Entries behind others; the first whose name is there is in conflict.
fn added(
    alloc: Global,
    file: &Text,
    kind: Kind,
    theirs: &Map,
    mine: Map,
) -> Result<Map, LoadRefusal>
    ensures given { IsGiven result (added kind file.now theirs.now mine) }
    ensures fault { (at : List ℕ) → result ≡ Err (LoadRefusal.ReadFault at) → ⊥ }
{
    let mut all = mine;
    for at in 0..theirs.len() {
        if let Some((name, value)) = theirs.pair(at) {
            add_entry(alloc, file, kind, &mut all, name, value)?;
        }
    }
    Ok(all)
}

/// Puts an entry behind others, unless its name is there.
fn add_entry(
    alloc: Global,
    file: &Text,
    kind: Kind,
    to: &mut Map,
    name: &Text,
    value: &Tree,
) -> Result<(), LoadRefusal>
    ensures put { OnOk result (to.new ≡ with_entry to.old name.now value.now) }
    ensures new { OnOk result (is_some (value_at to.old name.now) ≡ false) }
    ensures met { (e : LoadRefusal) → result ≡ Err e → (e ≡ LoadRefusal.Memory → ⊥)
        → (e ≡ LoadRefusal.Conflict kind name.now file.now)
        × (is_some (value_at to.old name.now) ≡ true) }
{
    if to.get(name).is_some() {
        return Err(LoadRefusal::Conflict {
            kind,
            key: name.copy(alloc)?,
            file: file.copy(alloc)?,
        });
    }
    to.put(name.copy(alloc)?, value.copy(alloc)?)?;
    Ok(())
}
