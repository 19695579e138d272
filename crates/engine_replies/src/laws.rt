ghost use Rattle.engine_replies.specs.Laws.{RepliesAreWhole, RepliesReadBack};

/// The law that the bytes of a reply are a whole response, of its status and its body. Nothing runs.
pub fn replies_are_whole()
    ensures { RepliesAreWhole }
{}

/// The law that the status and the body of a reply are read as that reply, where its texts are UTF-8 and what it lists
/// stands in byte order. Nothing runs.
pub fn replies_read_back()
    ensures { RepliesReadBack }
{}
