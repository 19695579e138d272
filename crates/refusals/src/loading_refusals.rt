ghost use Rattle.std.specs.Prelude.{◌≡◌};
ghost use Rattle.loading_words.specs.Messages as loading;
ghost use Rattle.loading_words.specs.Statuses as ending;
ghost use Rattle.refusals.specs.Lines.{refusal_words};
ghost use Rattle.refusals.specs.Origins.{IsOfAsking, load_refusal, project_refusal};
ghost use Rattle.refusals.specs.Statuses.{refusal_status};

use crate::refusal::Refusal;
use loaded_files::LoadRefusal;
use loading_words::TreeRefusal;

impl From<LoadRefusal> for Refusal {
    ghost from_gives = { λ refusal joined. joined ≡ load_refusal refusal };

    /// What a call is refused with whose files aren't loaded: it has the same status and words, and comes before the
    /// dial. No memory.
    fn from(refusal: LoadRefusal) -> Refusal
        ensures refusal { result ≡ load_refusal refusal }
        ensures status { refusal_status result ≡ ending.load_status refusal }
        ensures words { refusal_words result ≡ loading.load_words refusal }
        ensures kind { IsOfAsking result }
    {
        match refusal {
            LoadRefusal::Memory => Refusal::Memory,
            refusal => Refusal::Load(refusal),
        }
    }
}

impl From<TreeRefusal> for Refusal {
    ghost from_gives = { λ refusal joined. joined ≡ project_refusal refusal };

    /// What a call is refused with whose tree gives no project: it has the same status and words, and comes before
    /// the dial. No memory.
    fn from(refusal: TreeRefusal) -> Refusal
        ensures refusal { result ≡ project_refusal refusal }
        ensures status { refusal_status result ≡ ending.refusal_status refusal }
        ensures words { refusal_words result ≡ loading.refusal_words refusal }
        ensures kind { IsOfAsking result }
    {
        match refusal {
            TreeRefusal::Name(refusal) => Refusal::Name(refusal),
            TreeRefusal::Active(refusal) => Refusal::Active(refusal),
            TreeRefusal::Project(refusal) => Refusal::Project(refusal),
            TreeRefusal::Memory => Refusal::Memory,
        }
    }
}
