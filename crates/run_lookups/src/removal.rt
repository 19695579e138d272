ghost use Rattle.std.specs.Prelude.{◌≡◌, not, if◌then◌else◌};

/// Whether a container of the project is to go: one of a declared service unless it is kept, and an orphan where these
/// are asked for. No memory.
pub fn goes(is_declared: bool, is_kept: bool, orphans: bool) -> bool
    ensures { result ≡ (if is_declared then not is_kept else orphans) }
{
    if is_declared { !is_kept } else { orphans }
}
