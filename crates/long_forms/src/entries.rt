ghost use Rattle.std.specs.Prelude.{◌≡◌, [], ◌∷◌, ◌++◌, IfOk, OnOk, map};
ghost use Rattle.std.specs.Option.{option_map};
ghost use Rattle.tree_base.specs.Entries.{with_entry};
ghost use Rattle.tree_base.specs.declared.Tree.{Tree};
ghost use Rattle.short_forms.specs.PortLaws.{long_port};
ghost use Rattle.short_forms.specs.MountLaws.{flag_word, long_mount};
ghost use Rattle.long_forms.specs.LongForms.{made_by};
ghost use Rattle.long_forms.specs.Fields.{with_given, with_labelled};

use merge_tables::EntryForm;
use short_forms::{FormRefusal, Mount, Port, read_mount, read_port};
use std::alloc::Global;
use tree_base::{List, Map, Memory, Text, TextMap, Tree};

/// The entries that a text stands for, behind others; None exactly where the text isn't of the form.
pub fn with_made(
    form: EntryForm,
    text: &Text,
    done: List<Tree>,
    alloc: Global,
) -> Result<Option<List<Tree>>, Memory>
    ensures { IfOk result (λ all. all ≡
        option_map (λ made. done ++ made) (made_by form text.now)) }
{
    match form {
        EntryForm::Port => with_ports(text, done, alloc),
        EntryForm::Mount => with_mount(text, done, alloc),
        EntryForm::File => Ok(Some(with_last(done, field_entry("source", text, alloc)?)?)),
    }
}

/// A list with one item more.
fn with_last(items: List<Tree>, item: Tree) -> Result<List<Tree>, Memory>
    ensures { IfOk result (λ all. all ≡ items ++ item ∷ []) }
{
    let mut all = items;
    all.push(item)?;
    Ok(all)
}

fn with_ports(text: &Text, done: List<Tree>, alloc: Global) -> Result<Option<List<Tree>>, Memory>
    ensures { IfOk result (λ all. all ≡
        option_map (λ made. done ++ made) (made_by EntryForm.Port text.now)) }
{
    match read_port(alloc, text) {
        Ok(ports) => Ok(Some(with_long_ports(ports.as_slice(), done, alloc)?)),
        Err(FormRefusal::BadForm { which: _ }) => Ok(None),
        Err(FormRefusal::Memory) => Err(Memory),
    }
}

fn with_mount(text: &Text, done: List<Tree>, alloc: Global) -> Result<Option<List<Tree>>, Memory>
    ensures { IfOk result (λ all. all ≡
        option_map (λ made. done ++ made) (made_by EntryForm.Mount text.now)) }
{
    match read_mount(alloc, text) {
        Ok(mount) => Ok(Some(with_last(done, long_mount(&mount, alloc)?)?)),
        Err(FormRefusal::BadForm { which: _ }) => Ok(None),
        Err(FormRefusal::Memory) => Err(Memory),
    }
}

/// Ports in their long forms, behind others.
fn with_long_ports(ports: &[Port], done: List<Tree>, alloc: Global) -> Result<List<Tree>, Memory>
    ensures { IfOk result (λ all. all ≡ done ++ map long_port ports.now) }
{
    let mut all = done;
    for port in ports {
        all.push(long_port(port, alloc)?)?;
    }
    Ok(all)
}

/// A port in its long form.
fn long_port(port: &Port, alloc: Global) -> Result<Tree, Memory>
    ensures { IfOk result (λ tree. tree ≡ long_port port.now) }
{
    let target = port.target;
    let mut entries = TextMap::new(alloc);
    put_text(
        &mut entries,
        "target",
        Text::from_string(format!(in alloc; "{target}")?),
        alloc,
    )?;
    put_text(&mut entries, "protocol", port.protocol.copy(alloc)?, alloc)?;
    put_given(&mut entries, "published", &port.published, alloc)?;
    put_given(&mut entries, "host_ip", &port.host_ip, alloc)?;
    Tree::mapping(alloc, entries)
}

/// A mount in its long form, which always says whether it is read-only.
fn long_mount(mount: &Mount, alloc: Global) -> Result<Tree, Memory>
    ensures { IfOk result (λ tree. tree ≡ long_mount mount.now) }
{
    let mut entries = TextMap::new(alloc);
    put_text(
        &mut entries,
        "type",
        Text::from_str(alloc, mount.kind.word())?,
        alloc,
    )?;
    put_text(&mut entries, "target", mount.target.copy(alloc)?, alloc)?;
    put_given(&mut entries, "source", &mount.source, alloc)?;
    put_text(
        &mut entries,
        "read_only",
        Text::from_str(alloc, flag_word(mount.read_only))?,
        alloc,
    )?;
    put_label(&mut entries, &mount.selinux, alloc)?;
    Tree::mapping(alloc, entries)
}

/// A bool, as it is written.
fn flag_word(flag: bool) -> &'static str
    ensures { result.now ≡ flag_word flag }
{
    if flag { "true" } else { "false" }
}

/// Puts a label for SELinux under `bind`, where there is one.
fn put_label(entries: &mut Map, label: &Option<Text>, alloc: Global) -> Result<(), Memory>
    ensures { OnOk result (entries.new ≡ with_labelled entries.old label.now) }
{
    match label {
        None => Ok(()),
        Some(label) => put(
            entries,
            "bind",
            field_entry("selinux", label, alloc)?,
            alloc,
        ),
    }
}

/// A mapping with one text.
pub fn field_entry(name: &str, text: &Text, alloc: Global) -> Result<Tree, Memory>
    ensures { IfOk result (λ tree. tree ≡ Tree.Map ((name.now, Tree.Scalar text.now) ∷ [])) }
{
    let mut entries = TextMap::new(alloc);
    put_text(&mut entries, name, text.copy(alloc)?, alloc)?;
    Tree::mapping(alloc, entries)
}

/// Puts a text under a name, where there is one.
fn put_given(
    entries: &mut Map,
    name: &str,
    text: &Option<Text>,
    alloc: Global,
) -> Result<(), Memory>
    ensures { OnOk result (entries.new ≡ with_given entries.old name.now text.now) }
{
    match text {
        None => Ok(()),
        Some(text) => put_text(entries, name, text.copy(alloc)?, alloc),
    }
}

/// Puts a text under a name.
fn put_text(entries: &mut Map, name: &str, text: Text, alloc: Global) -> Result<(), Memory>
    ensures { OnOk result (entries.new ≡ with_entry entries.old name.now (Tree.Scalar text)) }
{
    put(entries, name, Tree::Scalar(text), alloc)
}

/// Puts a tree under a name.
fn put(entries: &mut Map, name: &str, tree: Tree, alloc: Global) -> Result<(), Memory>
    ensures { OnOk result (entries.new ≡ with_entry entries.old name.now tree) }
{
    drop(entries.put(Text::from_str(alloc, name)?, tree)?);
    Ok(())
}
