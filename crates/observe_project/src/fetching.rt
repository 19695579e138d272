ghost use Rattle.std.specs.Prelude.{◌≡◌, ℕ, List, [], ◌∷◌, ◌++◌, IfOk, OnOk};
ghost use Rattle.engine_types.specs.declared.Exchange.{Exchange};
ghost use Rattle.engine_types.specs.declared.Request.{Request};
ghost use Rattle.engine_types.specs.declared.Slot.{Slot};
ghost use Rattle.std.specs.Prelude.{Option};
ghost use Rattle.run_model.specs.Observation.{Onward, after_first_look, after_look, after_pull, builder_of, by_policy, ending, fetching, images_of, inspecting, policy_of, pulling, seeing_images, wanting, with_image};
ghost use Rattle.engine_types.specs.declared.SeenEnd.{SeenEnd};
ghost use Rattle.engine_types.specs.declared.SeenFault.{SeenFault};
ghost use Rattle.observe_project.specs.Reading.{AreAsked, OrMemory, found_or_wanted};
ghost use Rattle.outside_api.specs.Standings.{standing};
ghost use Rattle.observe_project.specs.Steps.{Reads, Steps};

use crate::asking::{ask, keep};
use crate::images::{builder_of, images_of, policy_of};
use crate::outcomes::{
    fault_in, fault_or_memory, id_told, or_memory, pull_error, tells_missing, tells_pulled,
};
use engine_types::{Declared, Exchange, ImageRow, Policy, Request, Seen, SeenFault};
use outside_api::Hand;
use std::alloc::Global;
use tree_base::{List, Memory, ReservedList, Text};

/// Looks at each image of the declared set, in byte order.
pub(crate) fn see_images<H: Hand>(
    alloc: Global,
    hand: &mut H,
    declared: &Declared,
    seen: Seen,
    exchanges: &mut ReservedList<Exchange>,
) -> Result<Seen, SeenFault>
    ensures { Steps (seeing_images declared.now (images_of declared.now) seen)
        (λ s. ending (SeenEnd.Good s)) result exchanges.old.items exchanges.new.items
        (standing (H.log hand.old) (H.engine hand.old) (H.heard hand.old)
        (H.faults hand.old) (H.clock hand.old))
        (standing (H.log hand.new) (H.engine hand.new) (H.heard hand.new)
        (H.faults hand.new) (H.clock hand.new)) }
{
    let images = or_memory(images_of(alloc, declared))?;
    see_each(alloc, hand, declared, images.as_slice(), seen, exchanges)
}

fn see_each<H: Hand>(
    alloc: Global,
    hand: &mut H,
    declared: &Declared,
    images: &[Text],
    begun: Seen,
    exchanges: &mut ReservedList<Exchange>,
) -> Result<Seen, SeenFault>
    ensures { Steps (seeing_images declared.now images.now begun)
        (λ s. ending (SeenEnd.Good s)) result exchanges.old.items exchanges.new.items
        (standing (H.log hand.old) (H.engine hand.old) (H.heard hand.old)
        (H.faults hand.old) (H.clock hand.old))
        (standing (H.log hand.new) (H.engine hand.new) (H.heard hand.new)
        (H.faults hand.new) (H.clock hand.new)) }
{
    let mut seen = begun;
    for image in images {
        let next = see_next(alloc, hand, declared, image, seen, exchanges)?;
        seen = next;
    }
    Ok(seen)
}

fn see_next<H: Hand>(
    alloc: Global,
    hand: &mut H,
    declared: &Declared,
    image: &Text,
    seen: Seen,
    exchanges: &mut ReservedList<Exchange>,
) -> Result<Seen, SeenFault>
    ensures { (images : List (List ℕ))
        → Steps (seeing_images declared.now (image.now ∷ images) seen)
        (seeing_images declared.now images) result exchanges.old.items exchanges.new.items
        (standing (H.log hand.old) (H.engine hand.old) (H.heard hand.old)
        (H.faults hand.old) (H.clock hand.old))
        (standing (H.log hand.new) (H.engine hand.new) (H.heard hand.new)
        (H.faults hand.new) (H.clock hand.new)) }
{
    let id = see_image(alloc, hand, declared, image, exchanges)?;
    or_memory(with_image(alloc, seen, image, id))
}

fn with_image(alloc: Global, seen: Seen, image: &Text, id: Text) -> Result<Seen, Memory>
    ensures { IfOk result (λ now. now ≡ with_image seen image.now id) }
{
    let mut seen = seen;
    match put_image(alloc, &mut seen.images, image, id) {
        Ok(()) => Ok(seen),
        Err(memory) => {
            drop(seen);
            Err(memory)
        }
    }
}

/// Puts an image last, with its id.
fn put_image(
    alloc: Global,
    images: &mut List<ImageRow>,
    image: &Text,
    id: Text,
) -> Result<(), Memory>
    ensures { OnOk result (images.new ≡ images.old ++ record { name = image.now; id = id } ∷ []) }
{
    let name = image.copy(alloc)?;
    images.push(ImageRow { name, id })
}

fn see_image<H: Hand>(
    alloc: Global,
    hand: &mut H,
    declared: &Declared,
    image: &Text,
    exchanges: &mut ReservedList<Exchange>,
) -> Result<Text, SeenFault>
    ensures { (onward : List ℕ → List Exchange → Onward) → AreAsked onward
        → Steps (by_policy declared.now (policy_of declared.now image.now) image.now onward) onward
        result exchanges.old.items exchanges.new.items
        (standing (H.log hand.old) (H.engine hand.old) (H.heard hand.old)
        (H.faults hand.old) (H.clock hand.old))
        (standing (H.log hand.new) (H.engine hand.new) (H.heard hand.new)
        (H.faults hand.new) (H.clock hand.new)) }
{
    match policy_of(declared, image) {
        Policy::Always => pull(alloc, hand, image, exchanges),
        Policy::Missing => fetch(alloc, hand, declared, image, exchanges),
        Policy::Never => inspect(alloc, hand, image, exchanges),
    }
}

/// The id of an image, which is pulled where it is missing, unless a service is to build it.
fn fetch<H: Hand>(
    alloc: Global,
    hand: &mut H,
    declared: &Declared,
    image: &Text,
    exchanges: &mut ReservedList<Exchange>,
) -> Result<Text, SeenFault>
    ensures { (onward : List ℕ → List Exchange → Onward) → AreAsked onward
        → Steps (fetching (builder_of declared.now image.now) image.now onward) onward
        result exchanges.old.items exchanges.new.items
        (standing (H.log hand.old) (H.engine hand.old) (H.heard hand.old)
        (H.faults hand.old) (H.clock hand.old))
        (standing (H.log hand.new) (H.engine hand.new) (H.heard hand.new)
        (H.faults hand.new) (H.clock hand.new)) }
{
    let found = look_for(alloc, hand, image, exchanges)?;
    match found {
        Some(id) => Ok(id),
        None => want(alloc, hand, declared, image, exchanges),
    }
}

/// Pulls an image that is missing, unless a service is to build it.
fn want<H: Hand>(
    alloc: Global,
    hand: &mut H,
    declared: &Declared,
    image: &Text,
    exchanges: &mut ReservedList<Exchange>,
) -> Result<Text, SeenFault>
    ensures { (onward : List ℕ → List Exchange → Onward) → AreAsked onward
        → Steps (wanting (builder_of declared.now image.now) image.now onward) onward
        result exchanges.old.items exchanges.new.items
        (standing (H.log hand.old) (H.engine hand.old) (H.heard hand.old)
        (H.faults hand.old) (H.clock hand.old))
        (standing (H.log hand.new) (H.engine hand.new) (H.heard hand.new)
        (H.faults hand.new) (H.clock hand.new)) }
{
    match builder_of(declared, image) {
        Some(slot) => Err(needs_build(alloc, &slot.service)),
        None => pull(alloc, hand, image, exchanges),
    }
}

fn needs_build(alloc: Global, service: &Text) -> SeenFault
    ensures { OrMemory (SeenFault.NeedsBuild service.now) result }
{
    match service.copy(alloc) {
        Ok(service) => SeenFault::NeedsBuild { service },
        Err(_) => SeenFault::Memory,
    }
}

/// Pulls an image and gives its id.
fn pull<H: Hand>(
    alloc: Global,
    hand: &mut H,
    image: &Text,
    exchanges: &mut ReservedList<Exchange>,
) -> Result<Text, SeenFault>
    ensures { (onward : List ℕ → List Exchange → Onward) → AreAsked onward
        → Steps (pulling image.now onward) onward result exchanges.old.items exchanges.new.items
        (standing (H.log hand.old) (H.engine hand.old) (H.heard hand.old)
        (H.faults hand.old) (H.clock hand.old))
        (standing (H.log hand.new) (H.engine hand.new) (H.heard hand.new)
        (H.faults hand.new) (H.clock hand.new)) }
{
    ask_to_pull(alloc, hand, image, exchanges)?;
    inspect(alloc, hand, image, exchanges)
}

fn ask_to_pull<H: Hand>(
    alloc: Global,
    hand: &mut H,
    image: &Text,
    exchanges: &mut ReservedList<Exchange>,
) -> Result<(), SeenFault>
    ensures { (onward : List ℕ → List Exchange → Onward)
        → Steps (pulling image.now onward) (λ _. inspecting image.now onward)
        result exchanges.old.items exchanges.new.items
        (standing (H.log hand.old) (H.engine hand.old) (H.heard hand.old)
        (H.faults hand.old) (H.clock hand.old))
        (standing (H.log hand.new) (H.engine hand.new) (H.heard hand.new)
        (H.faults hand.new) (H.clock hand.new)) }
{
    let name = or_memory(image.copy(alloc))?;
    let exchange = ask(alloc, hand, Request::Pull { name }, exchanges)?;
    let pulled = read_pull(alloc, &exchange, image);
    keep(exchanges, exchange);
    pulled
}

fn read_pull(alloc: Global, exchange: &Exchange, image: &Text) -> Result<(), SeenFault>
    ensures { (onward : List ℕ → List Exchange → Onward)
        → exchange.now.request ≡ Request.Pull image.now
        → Reads (after_pull image.now onward exchange.now.outcome)
        (λ _. inspecting image.now onward)
        exchange.now.request exchange.now.outcome result }
{
    if tells_pulled(&exchange.outcome) {
        return Ok(());
    }
    match pull_error(&exchange.outcome) {
        Some(message) => Err(fault_or_memory(pull_failed(alloc, image, message))),
        None => Err(fault_in(alloc, exchange)),
    }
}

fn pull_failed(alloc: Global, image: &Text, message: &Text) -> Result<SeenFault, Memory>
    ensures { IfOk result (λ fault. fault ≡ SeenFault.PullFailed image.now message.now) }
{
    Ok(SeenFault::PullFailed {
        image: image.copy(alloc)?,
        message: message.copy(alloc)?,
    })
}

/// The id of an image that is there.
fn inspect<H: Hand>(
    alloc: Global,
    hand: &mut H,
    image: &Text,
    exchanges: &mut ReservedList<Exchange>,
) -> Result<Text, SeenFault>
    ensures { (onward : List ℕ → List Exchange → Onward) → AreAsked onward
        → Steps (inspecting image.now onward) onward result exchanges.old.items exchanges.new.items
        (standing (H.log hand.old) (H.engine hand.old) (H.heard hand.old)
        (H.faults hand.old) (H.clock hand.old))
        (standing (H.log hand.new) (H.engine hand.new) (H.heard hand.new)
        (H.faults hand.new) (H.clock hand.new)) }
{
    let name = or_memory(image.copy(alloc))?;
    let exchange = ask(alloc, hand, Request::Image { name }, exchanges)?;
    let id = read_id(alloc, &exchange);
    keep(exchanges, exchange);
    id
}

fn read_id(alloc: Global, exchange: &Exchange) -> Result<Text, SeenFault>
    ensures { (image : List ℕ) (onward : List ℕ → List Exchange → Onward) → AreAsked onward
        → exchange.now.request ≡ Request.Image image
        → Reads (after_look image onward exchange.now.outcome) onward
        exchange.now.request exchange.now.outcome result }
{
    match id_told(&exchange.outcome) {
        Some(id) => or_memory(id.copy(alloc)),
        None => Err(fault_in(alloc, exchange)),
    }
}

/// The id of an image, None where it isn't there.
fn look_for<H: Hand>(
    alloc: Global,
    hand: &mut H,
    image: &Text,
    exchanges: &mut ReservedList<Exchange>,
) -> Result<Option<Text>, SeenFault>
    ensures { (builder : Option Slot) (onward : List ℕ → List Exchange → Onward) → AreAsked onward
        → Steps (fetching builder image.now onward) (found_or_wanted builder image.now onward)
        result exchanges.old.items exchanges.new.items
        (standing (H.log hand.old) (H.engine hand.old) (H.heard hand.old)
        (H.faults hand.old) (H.clock hand.old))
        (standing (H.log hand.new) (H.engine hand.new) (H.heard hand.new)
        (H.faults hand.new) (H.clock hand.new)) }
{
    let name = or_memory(image.copy(alloc))?;
    let exchange = ask(alloc, hand, Request::Image { name }, exchanges)?;
    let found = read_found(alloc, &exchange);
    keep(exchanges, exchange);
    found
}

fn read_found(alloc: Global, exchange: &Exchange) -> Result<Option<Text>, SeenFault>
    ensures { (builder : Option Slot) (image : List ℕ) (onward : List ℕ → List Exchange → Onward)
        → AreAsked onward → exchange.now.request ≡ Request.Image image
        → Reads (after_first_look builder image onward exchange.now.outcome)
        (found_or_wanted builder image onward)
        exchange.now.request exchange.now.outcome result }
{
    if tells_missing(&exchange.outcome) {
        return Ok(None);
    }
    match id_told(&exchange.outcome) {
        Some(id) => or_memory(found(alloc, id)),
        None => Err(fault_in(alloc, exchange)),
    }
}

fn found(alloc: Global, id: &Text) -> Result<Option<Text>, Memory>
    ensures { IfOk result (λ copy. copy ≡ Some id.now) }
{
    Ok(Some(id.copy(alloc)?))
}
