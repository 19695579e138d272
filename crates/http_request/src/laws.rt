ghost use Rattle.http_request.specs.Laws.{BytesAreOneRequest};

/// The law that the bytes of a request are one request of HTTP's grammar, with its method, its target, its header fields
/// and its body. Nothing runs.
pub fn bytes_are_one_request()
    ensures { BytesAreOneRequest }
{}
