ghost use Rattle.std.specs.Prelude.{◌≡◌, ◌==◌, [], ◌∷◌, IfOk, slice_index};
ghost use Rattle.std.specs.List.{list_all};
ghost use Rattle.std.specs.Option.{option_copied};
ghost use Rattle.short_forms.specs.Answers.{Gives, answer_of};
ghost use Rattle.short_forms.specs.Cuts.{parts_at};
ghost use Rattle.short_forms.specs.MountLaws.{type_word};
ghost use Rattle.short_forms.specs.Mounts.{is_name_byte, is_path, is_volume_name, kind_of, mode_behind, mode_of, mount_at, mount_from, mount_in, mount_of, plain};

use crate::cuts::cut_text;
use crate::form::{Form, FormRefusal};
use std::alloc::Global;
use tree_base::{Memory, Text, TryCopy};

/// Where a mount takes its files from.
#[derive(Clone, Copy)]
pub enum MountKind {
    /// A path of the host.
    Bind,
    /// A volume, or a new one where no source is named.
    Volume,
    /// Memory.
    Tmpfs,
}

impl MountKind {
    /// The type of a mount, as it is written (Compose Specification, "volumes", long syntax).
    pub fn word(self) -> &'static str
        ensures { result.now ≡ type_word self }
    {
        match self {
            MountKind::Bind => "bind",
            MountKind::Volume => "volume",
            MountKind::Tmpfs => "tmpfs",
        }
    }
}

/// A mount of a service (Compose Specification, "volumes").
#[derive(Drop)]
pub struct Mount {
    pub kind: MountKind,
    /// A path of the host, or the name of a volume.
    pub source: Option<Text>,
    /// The absolute path in the container.
    pub target: Text,
    pub read_only: bool,
    /// The label `z` or `Z`.
    pub selinux: Option<Text>,
}

impl TryCopy for Mount {
    fn copy(&self, alloc: Global) -> Result<Mount, Memory> {
        Ok(Mount {
            target: self.target.copy(alloc)?,
            source: self.source.copy(alloc)?,
            selinux: self.selinux.copy(alloc)?,
            kind: self.kind,
            read_only: self.read_only,
        })
    }
}

/// The mount of `target`, `source:target` or `source:target:mode`. The target is an absolute path. A source that
/// begins with `/`, `./`, `../` or `~/`, or is `.` or `..`, is a path of the host, and another the name of a volume.
/// The mode is a list with commas of `ro`, `rw`, `z`, `Z`, `cached`, `delegated` and `consistent`; of several words of
/// one sort the last one counts, and the last three are dropped.
pub fn read_mount(alloc: Global, text: &Text) -> Result<Mount, FormRefusal>
    ensures { Gives result (answer_of Form.Mount (mount_of text.now)) }
{
    match cut_text(text.as_str(), ':') {
        None => mount_at(alloc, MountKind::Volume, None, text.as_str(), &plain()),
        Some((source, rest)) => mount_behind(alloc, source, rest),
    }
}

/// The mount of a source and what stands behind the first colon.
fn mount_behind(alloc: Global, source: &str, rest: &str) -> Result<Mount, FormRefusal>
    ensures { Gives result (answer_of Form.Mount (mount_in (source.now ∷ parts_at 58 rest.now))) }
{
    match cut_text(rest, ':') {
        None => mount_from(alloc, source, rest, &plain()),
        Some((target, mode)) => mount_with(alloc, source, target, mode),
    }
}

/// The mount of a source, a target and what stands behind the second colon.
fn mount_with(alloc: Global, source: &str, target: &str, mode: &str) -> Result<Mount, FormRefusal>
    ensures { Gives result (answer_of Form.Mount
        (mount_in (source.now ∷ target.now ∷ parts_at 58 mode.now))) }
{
    match cut_text(mode, ':') {
        None => mount_from(alloc, source, target, &read_mode(alloc, mode)?),
        Some(_) => Err(FormRefusal::BadForm { which: Form::Mount }),
    }
}

/// What a mode says.
#[derive(Drop)]
struct Mode {
    read_only: bool,
    selinux: Option<Text>,
}

/// A mount that is written to, without a label.
fn plain() -> Mode
    ensures { result ≡ plain }
{
    Mode {
        read_only: false,
        selinux: None,
    }
}

/// What a list of words with commas says.
fn read_mode(alloc: Global, text: &str) -> Result<Mode, FormRefusal>
    ensures { Gives result (answer_of Form.Mount (mode_of text.now)) }
{
    let mut mode = plain();
    let mut rest = text;
    while let Some((word, more)) = cut_text(rest, ',') {
        mode = with_word(alloc, mode, word)?;
        rest = more;
    }
    with_word(alloc, mode, rest)
}

/// A mode with one more word behind it.
fn with_word(alloc: Global, mode: Mode, word: &str) -> Result<Mode, FormRefusal>
    ensures { Gives result (answer_of Form.Mount (mode_behind mode (word.now ∷ []))) }
{
    match word {
        "ro" => Ok(Mode {
            read_only: true,
            selinux: mode.selinux,
        }),
        "rw" => Ok(Mode {
            read_only: false,
            selinux: mode.selinux,
        }),
        "z" | "Z" => Ok(Mode {
            read_only: mode.read_only,
            selinux: Some(Text::from_str(alloc, word)?),
        }),
        "cached" | "delegated" | "consistent" => Ok(mode),
        _ => Err(FormRefusal::BadForm { which: Form::Mount }),
    }
}

/// A mount from a source.
fn mount_from(alloc: Global, source: &str, target: &str, mode: &Mode) -> Result<Mount, FormRefusal>
    ensures { Gives result (answer_of Form.Mount (mount_from source.now target.now mode.now)) }
{
    match kind_of(source.as_bytes()) {
        Some(kind) => mount_at(alloc, kind, Some(source), target, mode),
        None => Err(FormRefusal::BadForm { which: Form::Mount }),
    }
}

/// A mount at a target, which is an absolute path.
fn mount_at(
    alloc: Global,
    kind: MountKind,
    source: Option<&str>,
    target: &str,
    mode: &Mode,
) -> Result<Mount, FormRefusal>
    ensures { Gives result (answer_of Form.Mount
        (mount_at kind (option_copied source.entry) target.now mode.now)) }
{
    if !is_absolute(target.as_bytes()) {
        return Err(FormRefusal::BadForm { which: Form::Mount });
    }
    Ok(Mount {
        target: Text::from_str(alloc, target)?,
        source: text_given(alloc, source)?,
        selinux: mode.selinux.copy(alloc)?,
        kind,
        read_only: mode.read_only,
    })
}

fn text_given(alloc: Global, text: Option<&str>) -> Result<Option<Text>, Memory>
    ensures { IfOk result (λ given. given ≡ option_copied text.entry) }
{
    match text {
        None => Ok(None),
        Some(text) => Ok(Some(Text::from_str(alloc, text)?)),
    }
}

fn is_absolute(path: &[u8]) -> bool
    ensures { result ≡ (slice_index path.now 0 == 47) }
{
    match path {
        [b'/', ..] => true,
        _ => false,
    }
}

/// Whether a source is a path of the host or the name of a volume.
fn kind_of(source: &[u8]) -> Option<MountKind>
    ensures { result ≡ kind_of source.now }
{
    if is_path(source) {
        Some(MountKind::Bind)
    } else if is_volume_name(source) {
        Some(MountKind::Volume)
    } else {
        None
    }
}

fn is_path(source: &[u8]) -> bool
    ensures { result ≡ is_path source.now }
{
    match source {
        b"." | b".." => true,
        [b'/', ..] | [b'.' | b'~', b'/', ..] | [b'.', b'.', b'/', ..] => true,
        _ => false,
    }
}

fn is_volume_name(source: &[u8]) -> bool
    ensures { result ≡ is_volume_name source.now }
{
    !source.is_empty() && are_name_bytes(source)
}

fn are_name_bytes(text: &[u8]) -> bool
    ensures { result ≡ list_all is_name_byte text.now }
{
    text.iter().all(|b| is_name_byte(*b))
}

fn is_name_byte(b: u8) -> bool
    ensures { result ≡ is_name_byte b }
{
    b.is_ascii_alphanumeric() || b == b'_' || b == b'.' || b == b'-'
}
