ghost use Rattle.std.specs.Prelude.{◌≡◌, IfOk, OnOk, decimal};
ghost use Rattle.declared_set.specs.Labels.{container_labels, with_dependencies, with_known, with_origin};

use crate::dependencies::depends_on_text;
use crate::loaded_project::LoadedProject;
use crate::origin::config_files_text;
use declared_resources::labels::{in_byte_order, own_labels, put_label, variables_of};
use engine_types::{Pairs, labels};
use std::alloc::Global;
use tree_base::{Env, Memory, Text};
use typed_project::Service;

/// What a container's service depends on: of Docker Compose, which stops containers in that order where it reads no file.
const DEPENDS_ON: &str = "com.docker.compose.depends_on";
/// The Compose files of the container's project: of Docker Compose, which shows them where it lists projects.
const CONFIG_FILES: &str = "com.docker.compose.project.config_files";
/// The directory of the container's project: of Docker Compose.
const WORKING_DIR: &str = "com.docker.compose.project.working_dir";

/// The labels of a service's container with a number, in byte order of their names.
pub(crate) fn container_labels(
    alloc: Global,
    loaded: &LoadedProject,
    service: &Service,
    hash: &Text,
    number: u32,
) -> Result<Pairs, Memory>
    ensures { IfOk result (λ labels. labels
        ≡ container_labels loaded.now service.now hash.now number) }
{
    let mut labels = own_labels(alloc, service.labels())?;
    put_origin(alloc, &mut labels, loaded)?;
    put_dependencies(alloc, &mut labels, service)?;
    let name = &loaded.project.name;
    put_known(alloc, &mut labels, name, &service.key, hash, number)?;
    in_byte_order(variables_of(alloc, &labels)?)
}

/// Puts the files and the directory that a project was loaded from in place of labels of their names.
fn put_origin(alloc: Global, labels: &mut Env, loaded: &LoadedProject) -> Result<(), Memory>
    ensures { OnOk result (labels.new ≡ with_origin loaded.now labels.old) }
{
    let files = config_files_text(alloc, loaded.files.as_slice())?;
    put_label(alloc, labels, CONFIG_FILES, files.as_str())?;
    put_label(alloc, labels, WORKING_DIR, loaded.directory.as_str())
}

/// Puts what a service depends on in place of a label of that name.
fn put_dependencies(alloc: Global, labels: &mut Env, service: &Service) -> Result<(), Memory>
    ensures { OnOk result (labels.new ≡ with_dependencies service.now labels.old) }
{
    let text = depends_on_text(alloc, service)?;
    put_label(alloc, labels, DEPENDS_ON, text.as_str())
}

/// Puts the labels by which a container is known in place of those of their names.
fn put_known(
    alloc: Global,
    labels: &mut Env,
    project: &Text,
    service: &Text,
    hash: &Text,
    number: u32,
) -> Result<(), Memory>
    ensures { OnOk result (labels.new
        ≡ with_known project.now service.now hash.now number labels.old) }
{
    put_label(alloc, labels, labels::PROJECT, project.as_str())?;
    put_label(alloc, labels, labels::SERVICE, service.as_str())?;
    put_label(
        alloc,
        labels,
        labels::NUMBER,
        decimal(alloc, number)?.as_str(),
    )?;
    put_label(alloc, labels, labels::HASH, hash.as_str())?;
    put_label(alloc, labels, labels::VERSION, labels::HASH_VERSION)?;
    put_label(alloc, labels, labels::ONEOFF, labels::NOT_ONEOFF)
}

fn decimal(alloc: Global, number: u32) -> Result<Text, Memory>
    ensures { IfOk result (λ text. text ≡ decimal number) }
{
    let text = format!(in alloc; "{number}")?;
    Ok(Text::from_string(text))
}
