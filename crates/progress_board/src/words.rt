ghost use Rattle.std.specs.Prelude.{◌≡◌, ◌++◌, IfOk};
ghost use Rattle.std.specs.Option.{option_copied};
ghost use Rattle.run_model.specs.Lines.{request_words};
ghost use Rattle.run_model.specs.Shown.{shown};
ghost use Rattle.progress_board.specs.Subjects.{named};
ghost use Rattle.progress_board.specs.Words.{said_words, waited_words};

use engine_types::Request;
use run_lookups::shown;
use std::alloc::Global;
use tree_base::{Memory, Text};

/// What a request asks, in the words of a refusal, but with a name, if one is given, in place of the id that it speaks of. Control
/// characters are written by their codes, wherever they come from.
pub fn said_words(alloc: Global, request: &Request, name: Option<&Text>) -> Result<Text, Memory>
    ensures { IfOk result (λ words. words ≡ said_words request.now (option_copied name.entry)) }
{
    let words = words_of(alloc, request, name)?;
    shown(alloc, words.as_str())
}

/// What is waited for, in words.
pub(crate) fn waited_words(alloc: Global, name: &Text) -> Result<Text, Memory>
    ensures { IfOk result (λ words. words ≡ waited_words name.now) }
{
    before_shown(alloc, "wait for ", name)
}

fn words_of(alloc: Global, request: &Request, name: Option<&Text>) -> Result<Text, Memory>
    ensures { IfOk result (λ words.
        words ≡ request_words (named request.now (option_copied name.entry))) }
{
    match request {
        Request::ListContainers { .. } => Text::from_str(alloc, "list containers"),
        Request::Inspect { id } => before_shown(alloc, "inspect container ", name.unwrap_or(id)),
        Request::Logs { id } => before_shown(alloc, "logs container ", name.unwrap_or(id)),
        Request::Create { name, .. } => before_text(alloc, "create container ", name),
        Request::Start { id } => before_shown(alloc, "start container ", name.unwrap_or(id)),
        Request::Stop { id, .. } => before_shown(alloc, "stop container ", name.unwrap_or(id)),
        Request::Remove { id } => before_shown(alloc, "remove container ", name.unwrap_or(id)),
        Request::ListNetworks => Text::from_str(alloc, "list networks"),
        Request::MakeNetwork { spec } => before_text(alloc, "create network ", &spec.name),
        Request::Connect { container, .. } => {
            before_shown(alloc, "connect container ", name.unwrap_or(container))
        }
        Request::RemoveNetwork { id } => before_shown(alloc, "remove network ", name.unwrap_or(id)),
        Request::ListVolumes => Text::from_str(alloc, "list volumes"),
        Request::MakeVolume { spec } => before_text(alloc, "create volume ", &spec.name),
        Request::RemoveVolume { name } => before_text(alloc, "remove volume ", name),
        Request::Image { name } => before_text(alloc, "image ", name),
        Request::Pull { name } => before_text(alloc, "pull ", name),
    }
}

fn before_text(alloc: Global, words: &str, text: &Text) -> Result<Text, Memory>
    ensures { IfOk result (λ all. all ≡ words.now ++ text.now) }
{
    let all = format!(in alloc; "{words}{text}")?;
    Ok(Text::from_string(all))
}

/// Words before a text that an Engine sent.
fn before_shown(alloc: Global, words: &str, text: &Text) -> Result<Text, Memory>
    ensures { IfOk result (λ all. all ≡ words.now ++ shown text.now) }
{
    let text = shown(alloc, text.as_str())?;
    before_text(alloc, words, &text)
}
