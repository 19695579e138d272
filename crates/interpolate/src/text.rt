ghost use Rattle.std.specs.Prelude.{◌≡◌, ◌<◌, ◌+◌, ◌^◌, length};
ghost use Rattle.tree_base.specs.Entries.{value_at};
ghost use Rattle.interpolate.specs.Substitution.{substituted, substituted_within, Gives};

use crate::check::check;
use crate::join::join;
use crate::refusal::SubstRefusal;
use std::alloc::Global;
use tree_base::limits::MOST_FORM_LEVELS;
use tree_base::{Env, Text};

/// The value of a text under variables.
///
/// A name is an ASCII letter or `_` and then letters, digits and `_`. `$$` gives `$`. `$NAME` and `${NAME}` give the
/// value, or nothing where the variable is unset. `${NAME-tail}` gives the tail where it is unset, `${NAME?tail}`
/// then refuses with the tail as its message, and `${NAME+tail}` gives the tail where it is set, else nothing. With
/// a `:` before the operator an empty value counts as unset. A tail runs to the `}` that closes its form, and is
/// substituted where it is taken; else it has only to be well formed. Another `$` stays, and a value isn't read again.
///
/// The refusal is the first wrong form from the left, Unclosed or BadForm; else the first required variable from the
/// left that is missing, where one in a tail comes before the form that the tail stands in, and TooMuchText in place of
/// one whose message has more than 16,777,216 bytes; else TooMuchText where the value has more. No more is made.
pub fn subst(alloc: Global, text: &Text, env: &Env) -> Result<Text, SubstRefusal>
    ensures { Gives result (substituted (value_at env.now) text.now) }
{
    subst_within(alloc, text.as_str(), MOST_FORM_LEVELS, env)
}

#[tactic(auto, using(crate::proofs::Filling::whole_fails, crate::proofs::Filling::whole_given))]
fn subst_within(alloc: Global, text: &str, levels: u32, env: &Env) -> Result<Text, SubstRefusal>
    ensures { Gives result (substituted_within levels (value_at env.now) text.now) }
{
    check(text, 0, levels, false)?;
    let mut value = Some(Text::new(alloc));
    join(alloc, &mut value, text, 0, levels, false, env)?;
    match value {
        Some(value) => Ok(value),
        None => Err(SubstRefusal::TooMuchText),
    }
}
