ghost use Rattle.std.specs.Prelude.{◌≡◌, ◌++◌, IfOk};
ghost use Rattle.http_request.specs.Requests.{path_of};

use engine_types::Request;
use std::alloc::Global;
use tree_base::{Memory, Text};

/// The path of a request below the API's version, not yet escaped.
pub(crate) fn path_of(alloc: Global, request: &Request) -> Result<Text, Memory>
    ensures { IfOk result (λ path. path ≡ path_of request.now) }
{
    match request {
        Request::ListContainers { .. } => Text::from_str(alloc, "/containers/json"),
        Request::Inspect { id } => around(alloc, "/containers/", id, "/json"),
        Request::Logs { id } => around(alloc, "/containers/", id, "/logs"),
        Request::Create { .. } => Text::from_str(alloc, "/containers/create"),
        Request::Start { id } => around(alloc, "/containers/", id, "/start"),
        Request::Stop { id, .. } => around(alloc, "/containers/", id, "/stop"),
        Request::Remove { id } => around(alloc, "/containers/", id, ""),
        Request::ListNetworks => Text::from_str(alloc, "/networks"),
        Request::MakeNetwork { .. } => Text::from_str(alloc, "/networks/create"),
        Request::Connect { network, .. } => around(alloc, "/networks/", network, "/connect"),
        Request::RemoveNetwork { id } => around(alloc, "/networks/", id, ""),
        Request::ListVolumes => Text::from_str(alloc, "/volumes"),
        Request::MakeVolume { .. } => Text::from_str(alloc, "/volumes/create"),
        Request::RemoveVolume { name } => around(alloc, "/volumes/", name, ""),
        Request::Image { name } => around(alloc, "/images/", name, "/json"),
        Request::Pull { .. } => Text::from_str(alloc, "/images/create"),
    }
}

fn around(alloc: Global, before: &str, name: &Text, behind: &str) -> Result<Text, Memory>
    ensures { IfOk result (λ path. path ≡ before.now ++ name.now ++ behind.now) }
{
    let mut path = Text::from_str(alloc, before)?;
    path.push_str(name.as_str())?;
    path.push_str(behind)?;
    Ok(path)
}
