ghost use Rattle.std.specs.Prelude.{◌≡◌, IfOk};
ghost use Rattle.asked_target.specs.Targets.{asked_stop_file};

use compose_words::Options;
use file_paths::joined;
use std::alloc::Global;
use tree_base::{Memory, Text};

/// Where the file stands whose coming asks workers to stop: the path of `--stop-file` against the working directory, None
/// without that option.
pub fn asked_stop_file(
    alloc: Global,
    options: &Options,
    directory: &Text,
) -> Result<Option<Text>, Memory>
    ensures { IfOk result (λ path. path ≡ asked_stop_file options.now directory.now) }
{
    match &options.stop_file {
        Some(path) => Ok(Some(joined(alloc, directory, path.as_str())?)),
        None => Ok(None),
    }
}
