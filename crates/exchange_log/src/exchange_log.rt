ghost use Rattle.std.specs.Prelude.{◌≡◌, ◌++◌, ◌∷◌, ◌<◌, [], IfSome, IsTrue, OnOk, ◌↔◌, length};
ghost use Rattle.exchange_log.specs.Kept.{among, exchange_of};

use crate::look::{Look, SharedId};
use engine_types::{Exchange, Outcome, Reply, Request};
use std::alloc::Global;
use std::marker::Model;
use tree_base::{Memory, ReservedList, Text, TextMap, TryCopy};

/// A growing list of exchanges, of which contracts also see `spare`: where it isn't 0, the next exchange has room.
#[derive(Drop)]
pub struct ExchangeLog {
    whole: ReservedList<Exchange>,
    looks: ReservedList<Look>,
    ids: TextMap<SharedId>,
}

impl Model for ExchangeLog {
    ghost use Rattle.std.specs.Prelude.{length};
    ghost use Rattle.engine_types.specs.declared.Exchange.{Exchange};
    ghost use Rattle.tree_base.specs.Reserved.{Reserved};
    ghost use Rattle.exchange_log.specs.Kept.{AreInOrder, among};

    ghost Value = { Reserved Exchange };

    ghost view = { λ log. record {
      items = among 0 log.looks.items log.whole.items;
      spare = log.whole.spare;
    } };

    ghost invariant = { λ log. AreInOrder 0 log.looks.items (length log.whole.items) };
}

impl ExchangeLog {
    /// The empty log. No memory.
    pub fn new(alloc: Global) -> ExchangeLog
        ensures { result.items ≡ [] }
    {
        ExchangeLog {
            whole: ReservedList::new(alloc),
            looks: ReservedList::new(alloc),
            ids: TextMap::new(alloc),
        }
    }

    /// The exchanges that are kept whole, in order, and the looks among them. No memory.
    pub fn parts(&self) -> (&[Exchange], &[Look])
        ensures { among 0 result.1.now result.0.now ≡ self.now.items }
    {
        (self.whole.as_slice(), self.looks.as_slice())
    }

    /// How many exchanges there are. No memory.
    #[tactic(auto, using(crate::proofs::Among::counted))]
    pub fn len(&self) -> usize
        ensures { result ≡ length self.now.items }
    {
        let whole = self.whole.as_slice();
        let looks = self.looks.as_slice();
        whole.len() + looks.len()
    }

    /// Whether there is no exchange. No memory.
    pub fn is_empty(&self) -> bool
        ensures { IsTrue result ↔ (self.now.items ≡ []) }
    {
        self.len() == 0
    }

    /// Takes the room of an exchange of this request.
    pub fn reserve(&mut self, alloc: Global, request: &Request) -> Result<(), Memory>
        ensures items { self.new.items ≡ self.old.items }
        ensures room { OnOk result (0 < self.new.spare) }
    {
        self.whole.reserve(1)?;
        match request {
            Request::Inspect { id } => {
                self.looks.reserve(1)?;
                know(alloc, &mut self.ids, id)
            }
            _ => Ok(()),
        }
    }

    /// Puts an exchange last, for which there is room. No memory.
    #[tactic(auto, using(crate::proofs::Among::put_whole, crate::proofs::Among::put_look, crate::proofs::Among::order_whole, crate::proofs::Among::order_look))]
    pub fn push(&mut self, exchange: Exchange)
        requires { 0 < self.old.spare }
        ensures { self.new.items ≡ self.old.items ++ exchange ∷ [] }
    {
        let kept = match look_of(&self.ids, &exchange, self.whole.len()) {
            Some(look) => self.looks.push(look).is_ok(),
            None => false,
        };
        if kept {
            drop(exchange);
        } else {
            self.whole.push(exchange).unwrap();
        }
    }
}

/// Keeps the id of a container that is looked at, where it isn't kept yet.
fn know(alloc: Global, ids: &mut TextMap<SharedId>, id: &Text) -> Result<(), Memory> {
    if ids.get(id).is_none() {
        let shared = SharedId::new(alloc, id.copy(alloc)?)?;
        drop(ids.put(id.copy(alloc)?, shared)?);
    }
    Ok(())
}

/// An exchange as a look behind so many whole ones, where it is a look that was answered with a report, at an id that is kept. No
/// memory.
fn look_of(ids: &TextMap<SharedId>, exchange: &Exchange, behind: usize) -> Option<Look>
    ensures exchange { IfSome result (λ look. exchange_of look ≡ exchange.now) }
    ensures place { IfSome result (λ look. look.behind ≡ behind) }
{
    match &exchange.request {
        Request::Inspect { id } => match &exchange.outcome {
            Outcome::Answered(Reply::State(report)) => Some(Look {
                behind,
                id: shared_id(ids, id)?,
                report: *report,
            }),
            _ => None,
        },
        _ => None,
    }
}

/// The same id among those that are kept. No memory.
fn shared_id(ids: &TextMap<SharedId>, id: &Text) -> Option<SharedId>
    ensures { IfSome result (λ shared. shared ≡ id.now) }
{
    let shared = ids.get(id)?;
    if shared.get() == id {
        shared.share().ok()
    } else {
        None
    }
}
