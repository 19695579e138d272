ghost use Rattle.std.specs.Prelude.{◌≡◌};
ghost use Rattle.http_request.specs.Requests.{method_name, method_of};

use engine_types::Request;

/// A method of HTTP (RFC 9110, section 9.3).
#[derive(Clone, Copy, PartialEq, Eq)]
pub enum Method {
    Get,
    Post,
    Delete,
}

impl Method {
    /// Its name on the wire.
    pub(crate) fn name(self) -> &'static str
        ensures { result.now ≡ method_name self }
    {
        match self {
            Method::Get => "GET",
            Method::Post => "POST",
            Method::Delete => "DELETE",
        }
    }
}

/// The method of a request.
pub(crate) fn method_of(request: &Request) -> Method
    ensures { result ≡ method_of request.now }
{
    match request {
        Request::ListContainers { .. } => Method::Get,
        Request::Inspect { .. } => Method::Get,
        Request::Logs { .. } => Method::Get,
        Request::Create { .. } => Method::Post,
        Request::Start { .. } => Method::Post,
        Request::Stop { .. } => Method::Post,
        Request::Remove { .. } => Method::Delete,
        Request::ListNetworks => Method::Get,
        Request::MakeNetwork { .. } => Method::Post,
        Request::Connect { .. } => Method::Post,
        Request::RemoveNetwork { .. } => Method::Delete,
        Request::ListVolumes => Method::Get,
        Request::MakeVolume { .. } => Method::Post,
        Request::RemoveVolume { .. } => Method::Delete,
        Request::Image { .. } => Method::Get,
        Request::Pull { .. } => Method::Post,
    }
}
