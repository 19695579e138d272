ghost use Rattle.std.specs.Prelude.{◌≡◌, IfOk};
ghost use Rattle.memory_engine.specs.Serving.{conflict as conflicting, forbidden as denied};
ghost use Rattle.memory_engine.specs.Serving.{not_found as missing};

use engine_types::Reply;
use std::alloc::Global;
use tree_base::{Memory, Text};

fn refused(alloc: Global, status: u16, message: &str) -> Result<Reply, Memory>
    ensures { IfOk result (λ reply. reply ≡ Reply.Refused status message.now) }
{
    let message = Text::from_str(alloc, message)?;
    Ok(Reply::Refused { status, message })
}

/// What the request names isn't there.
pub fn not_found(alloc: Global) -> Result<Reply, Memory>
    ensures { IfOk result (λ reply. reply ≡ missing) }
{
    refused(alloc, 404, "not found")
}

/// Something stands in the request's way.
pub fn conflict(alloc: Global) -> Result<Reply, Memory>
    ensures { IfOk result (λ reply. reply ≡ conflicting) }
{
    refused(alloc, 409, "conflict")
}

/// The request isn't allowed.
pub fn forbidden(alloc: Global) -> Result<Reply, Memory>
    ensures { IfOk result (λ reply. reply ≡ denied) }
{
    refused(alloc, 403, "forbidden")
}
