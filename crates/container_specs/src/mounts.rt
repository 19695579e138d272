ghost use Rattle.std.specs.Prelude.{◌≡◌, ◌++◌, [], IfOk, OnOk, filter, find, map, reverse};
ghost use Rattle.std.specs.Str.{bytes_eq};
ghost use Rattle.std.specs.Option.{option_copied, option_to_list};
ghost use Rattle.container_specs.specs.Mounts.{bind_text, binds_of, file_bind, file_binds, file_of, is_in_memory, is_unnamed, last_value, memory_at, memory_paths, mode_of, mount_bind, mount_binds, mounts_in, source_of, tmpfs_of, volume_name, volumes_of};
ghost use Rattle.short_forms.specs.Cuts.{cut_once};

use crate::lists::{each_once, items_of, joined, unless_empty};
use attribute_types::FileUse;
use short_forms::{Mount, MountKind, cut_text};
use std::alloc::Global;
use tree_base::{List, Memory, Text, Var};
use typed_project::{FileItem, Project, Service, Volume};

/// The binds of the mounts, the secrets and the configs, each as `SOURCE:TARGET:MODE`, in this order.
pub(crate) fn binds_of(
    alloc: Global,
    project: &Project,
    service: &Service,
) -> Result<Option<List<Text>>, Memory>
    ensures { IfOk result (λ binds. binds ≡ binds_of project.now service.now) }
{
    let mut binds = List::new(alloc);
    put_mounts(alloc, project, items_of(service.volumes()), &mut binds)?;
    put_files(
        alloc,
        &project.secrets,
        items_of(service.secrets()),
        &mut binds,
    )?;
    put_files(
        alloc,
        &project.configs,
        items_of(service.configs()),
        &mut binds,
    )?;
    Ok(unless_empty(binds))
}

fn put_mounts(
    alloc: Global,
    project: &Project,
    mounts: &[Mount],
    binds: &mut List<Text>,
) -> Result<(), Memory>
    ensures { OnOk result (binds.new ≡ binds.old ++ mount_binds project.now mounts.now) }
{
    for mount in mounts {
        put_mount(alloc, project, mount, binds)?;
    }
    Ok(())
}

/// Puts a mount as a bind, where it takes its files from somewhere.
fn put_mount(
    alloc: Global,
    project: &Project,
    mount: &Mount,
    binds: &mut List<Text>,
) -> Result<(), Memory>
    ensures { OnOk result (binds.new ≡
        binds.old ++ option_to_list (mount_bind project.now mount.now)) }
{
    match source_of(project, mount) {
        Some(source) => binds.push(mount_bind(alloc, source, mount)?),
        None => Ok(()),
    }
}

fn mount_bind(alloc: Global, source: &Text, mount: &Mount) -> Result<Text, Memory>
    ensures { IfOk result (λ bind. bind ≡ bind_text source.now mount.now.target
        (mode_of mount.now.read_only mount.now.selinux)) }
{
    let mode = mode_of(alloc, mount)?;
    bind_text(alloc, source, &mount.target, mode.as_str())
}

/// A source at a target of the container, and how it is there.
fn bind_text(alloc: Global, source: &Text, target: &Text, mode: &str) -> Result<Text, Memory>
    ensures { IfOk result (λ bind. bind ≡ bind_text source.now target.now mode.now) }
{
    let mut bind = joined(alloc, source.as_str(), ":", target.as_str())?;
    bind.push_str(":")?;
    bind.push_str(mode)?;
    Ok(bind)
}

/// Who may write, and the label of SELinux behind a comma.
fn mode_of(alloc: Global, mount: &Mount) -> Result<Text, Memory>
    ensures { IfOk result (λ mode. mode ≡ mode_of mount.now.read_only mount.now.selinux) }
{
    match &mount.selinux {
        None => Text::from_str(alloc, if mount.read_only { "ro" } else { "rw" }),
        Some(label) => joined(
            alloc,
            if mount.read_only { "ro," } else { "rw," },
            label.as_str(),
            "",
        ),
    }
}

/// What a mount takes its files from: a path of the host, or the volume of a key by its name. No memory.
fn source_of<'p>(project: &'p Project, mount: &'p Mount) -> Option<&'p Text>
    ensures { option_copied result ≡ source_of project.now mount.now.kind mount.now.source }
{
    let Some(source) = &mount.source else {
        return None;
    };
    match mount.kind {
        MountKind::Bind => Some(source),
        MountKind::Volume => volume_name(project, source),
        MountKind::Tmpfs => None,
    }
}

/// The name of the volume with a key, where the project has it. No memory.
fn volume_name<'p>(project: &'p Project, key: &Text) -> Option<&'p Text>
    ensures { option_copied result ≡ volume_name project.now key.now }
{
    volume_with(project.volumes.as_slice(), key)?.name()
}

fn volume_with<'p>(volumes: &'p [Volume], key: &Text) -> Option<&'p Volume>
    ensures { option_copied result ≡ find (λ volume. bytes_eq volume.key key.now) volumes.now }
{
    volumes.iter().find(|volume| volume.key == *key)
}

fn put_files(
    alloc: Global,
    items: &List<FileItem>,
    files: &[FileUse],
    binds: &mut List<Text>,
) -> Result<(), Memory>
    ensures { OnOk result (binds.new ≡ binds.old ++ file_binds items.now files.now) }
{
    for file in files {
        put_file(alloc, items.as_slice(), file, binds)?;
    }
    Ok(())
}

/// Puts a secret or a config as a bind that can be read alone, where the project has it.
fn put_file(
    alloc: Global,
    items: &[FileItem],
    file: &FileUse,
    binds: &mut List<Text>,
) -> Result<(), Memory>
    ensures { OnOk result (binds.new ≡ binds.old ++ option_to_list (file_bind items.now file.now)) }
{
    match file_of(items, &file.source) {
        Some(item) => binds.push(bind_text(alloc, &item.file, &file.target, "ro")?),
        None => Ok(()),
    }
}

fn file_of<'i>(items: &'i [FileItem], key: &Text) -> Option<&'i FileItem>
    ensures { option_copied result ≡ find (λ item. bytes_eq item.key key.now) items.now }
{
    items.iter().find(|item| item.key == *key)
}

/// Where volumes without a name stand, as a set in byte order.
pub(crate) fn volumes_of(alloc: Global, service: &Service) -> Result<Option<List<Text>>, Memory>
    ensures { IfOk result (λ targets. targets ≡ volumes_of service.now.attributes) }
{
    let targets = unnamed_in(alloc, items_of(service.volumes()))?;
    let targets = each_once(alloc, targets.as_slice())?;
    Ok(unless_empty(targets))
}

fn unnamed_in(alloc: Global, mounts: &[Mount]) -> Result<List<Text>, Memory>
    ensures { IfOk result (λ targets. targets ≡ map (λ mount. mount.target)
        (filter (λ mount. is_unnamed mount.kind mount.source) mounts.now)) }
{
    let mut targets = List::new(alloc);
    for mount in mounts {
        if is_unnamed(mount) {
            targets.push(mount.target.copy(alloc)?)?;
        }
    }
    Ok(targets)
}

fn is_unnamed(mount: &Mount) -> bool
    ensures { result ≡ is_unnamed mount.now.kind mount.now.source }
{
    match mount.kind {
        MountKind::Volume => mount.source.is_none(),
        MountKind::Bind | MountKind::Tmpfs => false,
    }
}

/// The paths that are in memory with their options, in byte order; of several entries of a path the last counts.
pub(crate) fn tmpfs_of(alloc: Global, service: &Service) -> Result<Option<List<Var>>, Memory>
    ensures { IfOk result (λ paths. paths ≡ tmpfs_of service.now.attributes) }
{
    let paths = memory_paths(alloc, service)?;
    let names = names_of(alloc, paths.as_slice())?;
    let names = each_once(alloc, names.as_slice())?;
    let last = last_values(alloc, paths.as_slice(), names.as_slice())?;
    Ok(unless_empty(last))
}

fn memory_paths(alloc: Global, service: &Service) -> Result<List<Var>, Memory>
    ensures { IfOk result (λ paths. paths ≡ memory_paths service.now.attributes) }
{
    let mut paths = List::new(alloc);
    put_memory_mounts(alloc, items_of(service.volumes()), &mut paths)?;
    put_memory_texts(alloc, items_of(service.tmpfs()), &mut paths)?;
    Ok(paths)
}

fn put_memory_mounts(alloc: Global, mounts: &[Mount], paths: &mut List<Var>) -> Result<(), Memory>
    ensures { OnOk result (paths.new ≡ paths.old ++ map
        (λ mount. record { name = mount.target; value = [] })
        (filter (λ mount. is_in_memory mount.kind) mounts.now)) }
{
    for mount in mounts {
        if is_in_memory(mount.kind) {
            paths.push(path_with(alloc, mount.target.as_str(), "")?)?;
        }
    }
    Ok(())
}

fn is_in_memory(kind: MountKind) -> bool
    ensures { result ≡ is_in_memory kind }
{
    match kind {
        MountKind::Tmpfs => true,
        MountKind::Bind | MountKind::Volume => false,
    }
}

fn put_memory_texts(alloc: Global, texts: &[Text], paths: &mut List<Var>) -> Result<(), Memory>
    ensures { OnOk result (paths.new ≡
        paths.old ++ map (λ text. memory_at text (cut_once 58 text)) texts.now) }
{
    for text in texts {
        paths.push(memory_at(alloc, text.as_str())?)?;
    }
    Ok(())
}

/// A path that is in memory, with the options behind the first colon.
fn memory_at(alloc: Global, text: &str) -> Result<Var, Memory>
    ensures { IfOk result (λ path. path ≡ memory_at text.now (cut_once 58 text.now)) }
{
    match cut_text(text, ':') {
        None => path_with(alloc, text, ""),
        Some((path, options)) => path_with(alloc, path, options),
    }
}

fn path_with(alloc: Global, path: &str, options: &str) -> Result<Var, Memory>
    ensures { IfOk result (λ var. var ≡ record { name = path.now; value = options.now }) }
{
    Ok(Var {
        name: Text::from_str(alloc, path)?,
        value: Text::from_str(alloc, options)?,
    })
}

fn names_of(alloc: Global, vars: &[Var]) -> Result<List<Text>, Memory>
    ensures { IfOk result (λ names. names ≡ map (λ var. var.name) vars.now) }
{
    let mut names = List::new(alloc);
    for var in vars {
        names.push(var.name.copy(alloc)?)?;
    }
    Ok(names)
}

fn last_values(alloc: Global, vars: &[Var], names: &[Text]) -> Result<List<Var>, Memory>
    ensures { IfOk result (λ last. last ≡
        map (λ path. record { name = path; value = last_value vars.now path }) names.now) }
{
    let mut last = List::new(alloc);
    for name in names {
        last.push(path_with(alloc, name.as_str(), last_value(vars, name))?)?;
    }
    Ok(last)
}

/// The last of several values of a name; the empty text where it has none. No memory.
fn last_value<'v>(vars: &'v [Var], name: &Text) -> &'v str
    ensures { result.now ≡ last_value vars.now name.now }
{
    match last_with(vars, name) {
        Some(var) => var.value.as_str(),
        None => "",
    }
}

fn last_with<'v>(vars: &'v [Var], name: &Text) -> Option<&'v Var>
    ensures { option_copied result ≡ find (λ var. bytes_eq var.name name.now) (reverse vars.now) }
{
    vars.iter().rev().find(|var| is_named(var, name))
}

fn is_named(var: &Var, name: &Text) -> bool
    ensures { result ≡ bytes_eq var.now.name name.now }
{
    var.name == *name
}
