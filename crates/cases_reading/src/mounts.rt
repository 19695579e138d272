use crate::forms::refuse_form;
use case_files::{Answers, Fields};
use cases_ground::Entries;
use short_forms::{Mount, MountKind, read_mount};
use std::alloc::Global;
use tree_base::{Memory, Tree, TryCopy};

/// `mount: TEXT`: its `long_form`.
pub(crate) fn mount(fields: &Fields, answers: &mut Answers) {
    let text = answers.reading.text_at(fields, "mount");
    match read_mount(answers.reading.alloc, &text) {
        Ok(mount) => {
            let tree = copied_tree(answers.reading.alloc, &mount);
            drop(mount);
            answers.put_made("long_form", tree);
        }
        Err(refusal) => refuse_form(refusal, answers),
    }
}

fn copied_tree(alloc: Global, mount: &Mount) -> Result<Tree, Memory> {
    let copy = mount.copy(alloc)?;
    let tree = mount_tree(alloc, &copy);
    drop(copy);
    tree
}

fn mount_tree(alloc: Global, mount: &Mount) -> Result<Tree, Memory> {
    let mut entries = Entries::new(alloc);
    entries.text("kind", kind_word(mount.kind));
    entries.text_or_null("source", mount.source.as_ref());
    entries.text("target", mount.target.as_str());
    entries.text("read_only", flag_word(mount.read_only));
    entries.text_or_null("selinux", mount.selinux.as_ref());
    entries.whole()
}

fn kind_word(kind: MountKind) -> &'static str {
    match kind {
        MountKind::Bind => "Bind",
        MountKind::Volume => "Volume",
        MountKind::Tmpfs => "Tmpfs",
    }
}

fn flag_word(flag: bool) -> &'static str {
    if flag { "true" } else { "false" }
}
