use active_services::ActiveRefusal;
use compose_words::WordsRefusal;
use declared_set::IdentityRefusal;
use engine_types::{Condition, LateWhy, Outcome, Report, Request, SeenFault};
use file_digests::DigestRefusal;
use loaded_files::LoadRefusal;
use loading_words::ProjectRefusal;
use tree_base::Text;

/// Why a call ended otherwise than well. Each has its exit status and the line that it prints.
#[derive(Drop)]
pub enum Refusal {
    /// The words of the command line are none.
    Words(WordsRefusal),
    /// What was asked for is not built yet.
    NotBuilt(Unbuilt),
    /// The project couldn't be loaded.
    Load(LoadRefusal),
    /// The project has no name.
    Name(ProjectRefusal),
    /// A service requires one that isn't enabled.
    Active(ActiveRefusal),
    /// What stands in the project is refused.
    Project(ProjectRefusal),
    /// There is no digest of a config's or secret's file.
    Digest(DigestRefusal),
    /// What the project declares of the Engine is refused.
    Identity(IdentityRefusal),
    /// The observation ended so.
    Seen(SeenFault),
    /// An exchange of the run didn't end well.
    Request {
        request: Request,
        outcome: Outcome,
    },
    /// A slot's container failed a condition that the run needed, with the report that shows it.
    Condition {
        slot: Text,
        condition: Condition,
        report: Report,
    },
    /// The run was asked to stop.
    Stopped,
    /// The run met its deadline, or its journal was full.
    Late(LateWhy),
    /// Something outside failed.
    Outside(Part),
    /// Memory was wanted.
    Memory,
}

/// What is not built yet.
#[derive(Drop)]
pub enum Unbuilt {
    /// The words of the command line.
    Words,
}

/// The parts of the outside whose faults end a call.
#[derive(Debug, Clone, Copy, PartialEq, Eq)]
pub enum Part {
    Out,
    Plug,
}
