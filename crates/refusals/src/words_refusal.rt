ghost use Rattle.std.specs.Prelude.{◌≡◌};
ghost use Rattle.refusals.specs.Origins.{IsOfAsking, words_refusal};
ghost use Rattle.refusals.specs.Statuses.{refusal_status, words_status};

use crate::refusal::Refusal;
use compose_words::WordsRefusal;

impl From<WordsRefusal> for Refusal {
    ghost from_gives = { λ refusal joined. joined ≡ words_refusal refusal };

    /// What a call is refused with whose words are refused so: it comes before the dial. No memory.
    fn from(refusal: WordsRefusal) -> Refusal
        ensures refusal { result ≡ words_refusal refusal }
        ensures status { refusal_status result ≡ words_status refusal }
        ensures kind { IsOfAsking result }
    {
        match refusal {
            WordsRefusal::Memory => Refusal::Memory,
            refusal => Refusal::Words(refusal),
        }
    }
}
