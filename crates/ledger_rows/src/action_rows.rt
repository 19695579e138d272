ghost use Rattle.std.specs.Prelude.{◌≡◌, ◌+◌, ◌-◌, ◌<◌, ◌≤◌, length, find, get_or, set, IfOk, replicate};
ghost use Rattle.tree_base.specs.Limits.{count_bound};
ghost use Rattle.ledger_rows.specs.ActionRows.{is_ready, numbers, lack_at, state_at};
ghost use Rattle.ledger_rows.specs.declared.action_rows.State.{State};

use rank_rows::RankRow;
use std::alloc::Global;
use std::marker::Model;
use tree_base::Memory;

/// How an action stands.
#[derive(Debug, Clone, Copy, PartialEq, Eq)]
pub enum State {
    /// It may still be claimed.
    Free,
    /// It wasn't claimed, and never will be.
    Blocked,
    /// It was claimed.
    Out,
    /// It ended well, by the entry at this place of the journal.
    Well(usize),
    /// It ended otherwise.
    Badly,
}

/// The rows of the actions: how each stands, how many of its needs keep it, and which may be claimed.
#[derive(Drop)]
pub struct ActionRows {
    states: Vec<State>,
    lacks: Vec<u32>,
    ready: RankRow,
}

impl Model for ActionRows {
    ghost use Rattle.ledger_rows.specs.ActionRows.Values.{Actions};

    ghost Value = { Actions };

    ghost use Rattle.ledger_rows.specs.ActionRows.{IsKeyed};

    ghost view = { λ rows. record { states = rows.states.items; lacks = rows.lacks.items } };

    ghost invariant = { λ rows. IsKeyed rows.states.items rows.lacks.items rows.ready };
}

impl ActionRows {
    /// Rows of actions that are all free, each kept by so many needs. The whole room of the rows is taken here.
    pub fn new(alloc: Global, lacks: Vec<u32>) -> Result<ActionRows, Memory>
        requires { length lacks.items < count_bound }
        ensures states { IfOk result (λ rows.
            rows.states ≡ replicate (length lacks.items) State.Free) }
        ensures lacks { IfOk result (λ rows. rows.lacks ≡ lacks.items) }
    {
        let count = lacks.len() as u32;
        let mut states = Vec::new(alloc);
        let mut ready = RankRow::new(alloc, count)?;
        for at in 0..count {
            states.push(State::Free)?;
            ready.put(at, key_of(State::Free, lacks[at as usize]));
        }
        Ok(ActionRows {
            states,
            lacks,
            ready,
        })
    }

    /// How an action stands. No memory.
    pub fn state(&self, action: u32) -> State
        requires { action < length self.now.states }
        ensures { result ≡ state_at self.now action }
    {
        self.states[action as usize]
    }

    /// How the action with a number stands; one that isn't there is free. No memory.
    pub fn state_or_free(&self, action: usize) -> State
        ensures { result ≡ state_at self.now action }
    {
        match self.states.get(action) {
            Some(state) => *state,
            None => State::Free,
        }
    }

    /// How many needs keep an action. No memory.
    pub fn lack(&self, action: u32) -> u32
        requires { action < length self.now.states }
        ensures { result ≡ lack_at self.now action }
    {
        self.lacks[action as usize]
    }

    /// Sets how an action stands. No memory.
    pub fn set_state(&mut self, action: u32, state: State)
        requires { action < length self.old.states }
        ensures states { self.new.states ≡ set self.old.states action state }
        ensures lacks { self.new.lacks ≡ self.old.lacks }
    {
        let at = action as usize;
        self.states[at] = state;
        let key = key_of(state, self.lacks[at]);
        self.ready.put(action, key);
    }

    /// Sets how many needs keep an action. No memory.
    pub fn set_lack(&mut self, action: u32, lack: u32)
        requires { action < length self.old.states }
        ensures states { self.new.states ≡ self.old.states }
        ensures lacks { self.new.lacks ≡ set self.old.lacks action lack }
    {
        let at = action as usize;
        self.lacks[at] = lack;
        let key = key_of(self.states[at], lack);
        self.ready.put(action, key);
    }

    /// The least action that may be claimed. No memory.
    pub fn first(&self) -> Option<u32>
        ensures { result ≡ find (is_ready self.now) (numbers self.now) }
    {
        self.ready.first()
    }
}

/// The key of an action among the ready ones.
fn key_of(state: State, lack: u32) -> Option<u32>
    ensures { result ≡ Rattle.ledger_rows.specs.ActionRows.key_of state lack }
{
    if lack > 0 {
        return None;
    }
    match state {
        State::Free => Some(0),
        _ => None,
    }
}
