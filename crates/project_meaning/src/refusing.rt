ghost use Rattle.std.specs.Prelude.{◌≡◌};
ghost use Rattle.project_meaning.specs.Meaning.{refusal_at, refusal_of};

use attribute_types::{AttributeRefusal, Fault};
use loading_words::{ProjectRefusal, TreeRefusal};
use tree_base::Path;

/// Why a tree gives no project whose attribute is refused.
pub(crate) fn refusal_of(refusal: AttributeRefusal) -> TreeRefusal
    ensures { result ≡ refusal_of refusal }
{
    match refusal {
        AttributeRefusal::At { fault, path } => TreeRefusal::Project(refusal_at(fault, path)),
        AttributeRefusal::Memory => TreeRefusal::Memory,
    }
}

fn refusal_at(fault: Fault, path: Path) -> ProjectRefusal
    ensures { result ≡ refusal_at fault path }
{
    match fault {
        Fault::UnknownAttribute => ProjectRefusal::UnknownAttribute { path },
        Fault::WrongKind => ProjectRefusal::WrongKind { path },
        Fault::BadValue => ProjectRefusal::BadValue { path },
    }
}
