//! Who joins: the lines of a script that do, and their ambassadors.

ghost use Rattle.std.specs.Prelude.{◌≡◌, ◌<◌, ◌∷◌, [], length, vec_len, IfOk, IfErr};
ghost use Rattle.std.specs.List.{All};
ghost use Rattle.hla_outcomes.specs.Joining.{joins, script_joins};

use hla_base::Fault;
use hla_callbacks::{FederateAmbassador, Recorder};
use hla_commands::{Command, Line, ScriptFaultKind, parse};
use std::alloc::Global;
use std::collections::VecDeque;
use std::marker::Model;

/// How many federates the lines of a script join, each with an ambassador.
pub fn joins(script: &[Line<'_>]) -> usize
    ensures { result ≡ joins script.now }
{
    let mut count = 0;
    for line in script {
        if let Command::Join { .. } = &line.command {
            count += 1;
        }
    }
    count
}

/// So many recorders that have heard nothing; `OutOfMemory` where the room was refused.
fn new_recorders(alloc: Global, count: usize) -> Result<Vec<Recorder>, Fault>
    ensures heard { IfOk result (λ rs. All (λ r. r.heard ≡ []) rs.items) }
    ensures count { IfOk result (λ rs. vec_len rs ≡ count) }
    ensures err { IfErr result (λ e. e ≡ Fault.OutOfMemory) }
{
    let Ok(mut recorders) = Vec::with_capacity(alloc, count) else {
        return Err(Fault::OutOfMemory);
    };
    for _ in 0..count {
        let Ok(()) = recorders.push(Recorder::new(alloc)) else {
            return Err(Fault::OutOfMemory);
        };
    }
    Ok(recorders)
}

/// A recorder for each line of a script that joins a federate, for callers who want no ambassadors of their own; none for a
/// script at fault. `OutOfMemory` where a growth was refused.
pub fn recorders(alloc: Global, script: &[u8]) -> Result<Vec<Recorder>, Fault>
    ensures heard { IfOk result (λ rs. All (λ r. r.heard ≡ []) rs.items) }
    ensures enough { IfOk result (λ rs. vec_len rs ≡ script_joins script.now) }
    ensures err { IfErr result (λ e. e ≡ Fault.OutOfMemory) }
{
    match parse(alloc, script) {
        Ok(script) => new_recorders(alloc, joins(script.as_slice())),
        Err(fault) if fault.kind == ScriptFaultKind::OutOfMemory => Err(Fault::OutOfMemory),
        Err(_) => Ok(Vec::new(alloc)),
    }
}

/// The ambassadors of the federates that are to join; none has heard anything. Contracts see the list of them, in their order.
#[derive(Drop)]
pub struct Ambassadors<B: FederateAmbassador> {
    rest: VecDeque<B>,
}

impl<B: FederateAmbassador> Model for Ambassadors<B> {
    ghost use Rattle.std.specs.Prelude.{◌≡◌, List, []};
    ghost use Rattle.std.specs.List.{All};

    ghost Value = { List B };

    ghost view = { λ a. a.rest.items };

    ghost invariant = { λ a. All (λ b. B.heard b ≡ []) a.rest.items };
}

impl<B: FederateAmbassador> Ambassadors<B> {
    /// Those of a list, from its first on.
    pub fn new(all: Vec<B>) -> Ambassadors<B>
        requires { All (λ b. B.heard b ≡ []) all.items }
        ensures { result ≡ all.items }
    {
        Ambassadors {
            rest: VecDeque::from_vec(all),
        }
    }

    /// Takes the first out.
    pub fn take_first(&mut self) -> B
        requires { 0 < length self.old }
        ensures heard { B.heard result ≡ [] }
        ensures taken { self.old ≡ result ∷ self.new }
    {
        match self.rest.pop_front() {
            Some(ambassador) => ambassador,
            None => unreachable!(),
        }
    }
}
