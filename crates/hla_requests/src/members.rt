//! The federates that have joined, by name.

ghost use Rattle.std.specs.Prelude.{◌≡◌, ◌∷◌, ◌++◌, ◌+◌, ◌≤◌, ℕ, [], List, map, IfOk, IfErr, is_some, vec_len, vec_capacity};
ghost use Rattle.std.specs.Str.{bytes_eq};
ghost use Rattle.hla_machine.specs.declared.step.Step.TheVariants.{Join};
ghost use Rattle.hla_requests.specs.Members.{change_of, federate_named, joined_federate_named, with_change, without};

use hla_base::{Fault, FederateNo, List, Plain};
use hla_machine::{Answer, Outcome, Service, Step};

/// A federate that joined, under its name.
#[derive(Debug, Drop)]
pub struct NamedFederate {
    pub name: List<u8>,
    pub number: FederateNo,
    /// Whether it has not resigned since.
    pub is_joined: bool,
}

/// What a step changes of those that have joined, if it is done.
#[derive(Debug, Drop)]
pub enum MemberChange {
    /// A federate joins under a name.
    Joins { name: List<u8> },
    /// A federate resigns.
    Resigns { federate: FederateNo },
    /// Nothing.
    Stays,
}

impl MemberChange {
    /// What a step changes. `OutOfMemory` where a growth was refused for the name.
    pub fn of(step: &Step) -> Result<MemberChange, Fault>
        ensures ok { IfOk result (λ change. change ≡ change_of step.now) }
        ensures err { IfErr result
            (λ e. (e ≡ Fault.OutOfMemory) × (name : List ℕ) × (step.now ≡ Join name)) }
    {
        match step {
            Step::Join { name } => Ok(MemberChange::Joins { name: name.copy()? }),
            Step::Call {
                federate,
                service: Service::Resign { .. },
            } => Ok(MemberChange::Resigns {
                federate: *federate,
            }),
            _ => Ok(MemberChange::Stays),
        }
    }
}

/// Notes that a federate has resigned.
fn resign(members: &mut [NamedFederate], federate: FederateNo)
    ensures { members.new ≡ map (without federate) members.old }
{
    for member in members.iter_mut() {
        if member.number == federate {
            member.is_joined = false;
        }
    }
}

/// Notes a change, if its step was done.
pub fn note(members: &mut Vec<NamedFederate>, change: MemberChange, outcome: &Outcome)
    requires { vec_len members.old + 1 ≤ vec_capacity members.old }
    ensures { members.new.items ≡ with_change members.old.items change outcome.now }
{
    let Outcome::Done(answer) = outcome else {
        return;
    };
    match change {
        MemberChange::Joins { name } => {
            if let Answer::Federate(number) = answer {
                members.push_reserved(NamedFederate {
                    name,
                    number: *number,
                    is_joined: true,
                });
            }
        }
        MemberChange::Resigns { federate } => resign(members.as_mut_slice(), federate),
        MemberChange::Stays => {}
    }
}

/// Whether two names are the same. Most differ in their last byte, as `F1` and `F2` do, so that is looked at first.
fn is_same_name(one: &[u8], other: &[u8]) -> bool
    ensures { result ≡ bytes_eq one.now other.now }
{
    one.last() == other.last() && one == other
}

/// The federate that joined last under a name, also where it has resigned since.
#[tactic(auto, unfolding(crate::specs::Members::federate_named))]
pub fn federate_named(members: &[NamedFederate], name: &[u8]) -> Option<FederateNo>
    ensures { result ≡ federate_named members.now name.now }
{
    members
        .iter()
        .rev()
        .find(|m| is_same_name(m.name.as_slice(), name))
        .map(|m| m.number)
}

/// The federate that is joined under a name.
#[tactic(auto, unfolding(crate::specs::Members::joined_federate_named))]
pub fn joined_federate_named(members: &[NamedFederate], name: &[u8]) -> Option<FederateNo>
    ensures { result ≡ joined_federate_named members.now name.now }
{
    members
        .iter()
        .rev()
        .find(|m| m.is_joined && is_same_name(m.name.as_slice(), name))
        .map(|m| m.number)
}
