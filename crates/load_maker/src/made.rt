ghost use Rattle.std.specs.Prelude.{◌≡◌, ◌+◌, ◌/◌, ◌≤◌, IfOk};
ghost use Rattle.load_maker.specs.Texts.{made_text};
ghost use Rattle.tree_base.specs.Limits.{most_simulated};

use crate::sections::{push_networks, push_services, push_volumes};
use std::alloc::Global;
use tree_base::{Memory, Text};

/// A project as the text of its Compose file, and the number, from 1, of the exchange of a run whose reply is lost.
#[derive(Drop)]
pub struct Made {
    pub text: Text,
    pub lose_at: u64,
}

/// The project of so many services, 1 to 1,000. The reply that is lost is that of the exchange 20 and half the number, rounded
/// down.
#[tactic(auto, unfolding(crate::specs::Texts::made_text))]
pub fn make(alloc: Global, number: u32) -> Result<Made, Memory>
    requires least { 1 ≤ number }
    requires most { number ≤ most_simulated }
    ensures text { IfOk result (λ made. made.text ≡ made_text number) }
    ensures lose_at { IfOk result (λ made. made.lose_at ≡ 20 + number / 2) }
{
    let mut text = Text::from_str(alloc, "name: sim\nservices:\n")?;
    push_services(alloc, &mut text, number)?;
    text.push_str("networks:\n")?;
    push_networks(alloc, &mut text, number)?;
    text.push_str("volumes:\n")?;
    push_volumes(alloc, &mut text, number)?;
    let lose_at = 20 + u64::from(number) / 2;
    Ok(Made { text, lose_at })
}
