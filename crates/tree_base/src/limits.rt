//! The limits of the program, in the order of `docs/limits.md`: what goes, and past which point something is refused. The
//! definitions have the same numbers in `specs/Limits.antt`.

// Files and trees.

/// How many files one load reads.
pub const MOST_FILES: u32 = 64;

/// How many bytes a file has that is read: a Compose file, an env file, the file of a config or of a secret.
pub const MOST_FILE_BYTES: u64 = 4_194_304;

/// How many levels a tree has that is read.
pub const MOST_LEVELS: u32 = 64;

/// How many nodes a tree has, as it is read, in long forms and merged.
pub const MOST_NODES: u64 = 200_000;

/// How many bytes the keys and scalars of a tree have together: as it is read, with variables' values, in long forms and merged.
pub const MOST_TEXT: u64 = 16_777_216;

/// How many forms `${..}` stand in one another.
pub const MOST_FORM_LEVELS: u32 = 32;

/// The greatest line, column or place that is told, which stands for those past it: the greatest number of 32 bits.
pub const GREATEST_PLACE: usize = 4_294_967_295;

// Projects.

/// How many services are enabled.
pub const MOST_SERVICES: usize = 1_000;

/// How many containers a service has.
pub const MOST_CONTAINERS: u32 = 100;

/// How many needs all containers have together.
pub const MOST_NEEDS: u64 = 4_000_000;

/// The greatest port.
pub const GREATEST_PORT: u64 = 65_535;

/// How many ports one range has.
pub const MOST_PORTS: u32 = 1_000;

/// The greatest duration, in microseconds.
pub const GREATEST_DURATION: u64 = 9_000_000_000_000_000;

/// The greatest decimal, in billionths.
pub const GREATEST_DECIMAL: u64 = 9_000_000_000_000_000_000;

/// The greatest number otherwise, also of a size's bytes: the greatest of 64 bits with a sign.
pub const GREATEST_NUMBER: u64 = 9_223_372_036_854_775_807;

// Words.

/// How many workers there may be.
pub const MOST_WORKERS: u32 = 16;

/// How many workers there are where nothing is said.
pub const USUAL_WORKERS: u32 = 4;

/// How many seconds an option may give: `--wait-timeout` and `-t`.
pub const MOST_SECONDS: u32 = 1_000_000;

/// How many connections `enginesim` serves.
pub const MOST_CONNECTIONS: u32 = 1_000_000;

/// How many services `simulate` has.
pub const MOST_SIMULATED: u32 = 1_000;

/// How many words a call has.
pub const MOST_WORDS: usize = 4_294_967_295;

// Runs.

/// How many actions a plan has.
pub const MOST_ACTIONS: usize = 65_536;

/// How many entries a journal has before an ask that is answered with more work.
pub const MOST_ENTRIES: usize = 1_000_000;

/// Below this are the counts of a run's slots, networks, actions and needs, and with them all places in its rows: numbers of
/// 32 bits.
pub const COUNT_BOUND: usize = 4_294_967_296;

/// How many exchanges a hand over a socket makes.
pub const MOST_EXCHANGES: usize = 4_611_686_018_427_387_904;

/// How often is looked for what a create would make that was refused because its name is used.
pub const MOST_LOOKS: u32 = 8;

// Responses of an Engine.

/// How many bytes a response's heads have together, a chunk line, and the lines behind the last chunk.
pub const MOST_HEAD_BYTES: usize = 65_536;

/// How many header lines one head has, and how many lines stand behind the last chunk.
pub const MOST_HEADER_LINES: usize = 100;

/// How many bytes a body has.
pub const MOST_BODY_BYTES: u64 = 16_777_216;

/// How many bytes the framing of a body in chunks has: chunk lines, the line ends behind chunks, and the lines behind the last.
pub const MOST_FRAMING_BYTES: u64 = 16_777_216;

/// How many values the JSON of a body has.
pub const MOST_BODY_VALUES: u64 = 1_000_000;

/// How many bytes the body of a stream of events has.
pub const MOST_STREAM_BYTES: u64 = 268_435_456;

/// How many bytes a line of a stream of events has, without its line end.
pub const MOST_EVENT_BYTES: usize = 1_048_576;

/// How many slots there are whose logs are asked for.
pub const MOST_LOG_SLOTS: usize = 10_000;

/// How many bytes the texts of all lines of logs have together.
pub const MOST_LOG_BYTES: usize = 268_435_456;

// Times.

/// How long a hand pauses before a poll of a container, in milliseconds.
pub const BEFORE_POLL: u32 = 500;

/// How long it pauses where its worker has nothing to do yet, in milliseconds.
pub const WHILE_IDLE: u32 = 250;

/// How long a call waits before each such look, in milliseconds.
pub const BEFORE_LOOK: u64 = 250;

/// How many seconds a container has to stop where nothing says so.
pub const USUAL_STOP_SECONDS: u64 = 10;
