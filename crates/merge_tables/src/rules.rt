/// The lists of a service whose entries are unique (Compose Specification, "Merge", unique resources).
#[derive(Clone, Copy, PartialEq, Eq, Drop)]
pub enum EntryKind {
    /// Of `ports`: one by address, target, what is published and protocol.
    Port,
    /// Of `volumes`: one by target.
    Mount,
    /// Of `secrets`: one by where it is seen.
    Secret,
    /// Of `configs`: one by where it is seen.
    Config,
}

/// How a sequence is laid over a sequence, where it isn't just appended.
#[derive(Clone, Copy, PartialEq, Eq, Drop)]
pub enum Joining {
    /// It takes the other's place.
    Replaced,
    /// An entry is laid over the first that is one with it, and else appended.
    Unique(EntryKind),
}

/// As what a tree stands in the one that holds it.
#[derive(Clone, Copy, PartialEq, Eq, Drop)]
pub enum Standing {
    /// As the value of a key, or as a whole file.
    Value,
    /// As an item of a sequence.
    Item,
}

/// What a text of a list stands for that is short for a mapping.
#[derive(Clone, Copy, PartialEq, Eq, Drop)]
pub enum PairForm {
    /// `KEY=VALUE`, or a key without a value.
    KeyValue,
    /// `HOST=ADDRESS`, or `HOST:ADDRESS`.
    Host,
    /// A name, which has no value.
    Name,
}

/// What a text of a list stands for that has entries.
#[derive(Clone, Copy, PartialEq, Eq, Drop)]
pub enum EntryForm {
    /// Ports.
    Port,
    /// A mount.
    Mount,
    /// A secret or a config.
    File,
}

/// The short form of an attribute.
#[derive(Clone, Copy, PartialEq, Eq, Drop)]
pub enum ShortForm {
    /// A list of texts for a mapping.
    Mapping(PairForm),
    /// Texts for entries.
    Entries(EntryForm),
    /// A text for a list of one.
    OneText,
    /// A text for what a service is built from.
    Context,
    /// A text for the command of a health check, which a shell runs.
    Test,
    /// A text for the words of a command line.
    Words,
}
