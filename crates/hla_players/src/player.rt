//! A federate of a script, and what its lines have it do.

ghost use Rattle.std.specs.Prelude.{◌≡◌};
ghost use Rattle.hla_machine.specs.declared.service.Service.TheVariants as service;
ghost use Rattle.hla_players.specs.Deeds.{DoesDeed, IsDeedOf, IsGoneBy, caller_of};
ghost use Rattle.hla_players.specs.declared.player.Deed.TheVariants as deed;

use hla_base::Fault;
use hla_callbacks::FederateAmbassador;
use hla_catalogue::Catalogue;
use hla_commands::Call;
use hla_history::History;
use hla_interface::{Federate, Left};
use hla_machine::{Answer, Outcome, ResignAction, Service};
use hla_monitor::{Naming, Publisher};
use hla_outcomes::{outcome_of, outcome_of_tick};
use hla_requests::{AskFault, service_of};
use std::alloc::Global;
use std::sync::Wait;
use std::sync::ledger::Ledger;

/// A federate of a script: joined, or what it left behind when it resigned.
#[derive(Drop)]
pub enum Player<L: Ledger + Naming, B: FederateAmbassador, P: Publisher<L>, H: History<L, B>> {
    Joined(Federate<L, B, P, H>),
    Gone(Left<L, B>),
}

/// A federate of a script, and how the line that it has done came out.
#[derive(Drop)]
pub struct Acted<L: Ledger + Naming, B: FederateAmbassador, P: Publisher<L>, H: History<L, B>> {
    pub player: Player<L, B, P, H>,
    pub outcome: Outcome,
}

/// What a line has a federate do.
#[derive(Drop)]
pub enum Deed {
    Tick,
    Serve(Service),
    /// Nothing: the line makes no step.
    Refused(Fault),
}

impl Deed {
    /// What a call of a script asks of a federate, by the names of a catalogue.
    pub fn of(alloc: Global, catalogue: &Catalogue, call: &Call<'_>) -> Deed
        ensures { IsDeedOf catalogue.now call.now result }
    {
        match service_of(alloc, catalogue, call) {
            Ok(None) => Deed::Tick,
            Ok(Some(service)) => Deed::Serve(service),
            Err(AskFault::Refused(fault)) => Deed::Refused(fault),
            Err(AskFault::Memory) => Deed::Refused(Fault::OutOfMemory),
        }
    }
}

/// Resigns: the federate is gone where it is not refused.
fn resign<L: Ledger + Naming, B: FederateAmbassador, P: Publisher<L>, H: History<L, B>>(
    rt: &impl Wait,
    federate: Federate<L, B, P, H>,
    action: ResignAction,
) -> Acted<L, B, P, H>
    ensures done { DoesDeed federate (deed.Serve (service.Resign action)) result.outcome
        result.player }
    ensures gone { IsGoneBy (deed.Serve (service.Resign action)) result.outcome result.player }
{
    match federate.resign(rt, action) {
        Ok(left) => Acted {
            player: Player::Gone(left),
            outcome: Outcome::Done(Answer::Done),
        },
        Err((fault, federate)) => Acted {
            player: Player::Joined(federate),
            outcome: Outcome::Refused(fault),
        },
    }
}

/// Calls a service.
fn serve<L: Ledger + Naming, B: FederateAmbassador, P: Publisher<L>, H: History<L, B>>(
    rt: &impl Wait,
    mut federate: Federate<L, B, P, H>,
    service: Service,
) -> Acted<L, B, P, H>
    ensures done { DoesDeed federate (deed.Serve service) result.outcome result.player }
    ensures gone { IsGoneBy (deed.Serve service) result.outcome result.player }
{
    if let Service::Resign { action } = &service {
        let action = *action;
        drop(service);
        return resign(rt, federate, action);
    }
    let outcome = outcome_of(federate.serve(rt, service));
    Acted {
        player: Player::Joined(federate),
        outcome,
    }
}

/// Does what a line asks of a joined federate; a tick picks up one callback. It is gone only where it was to resign and did.
pub fn do_deed<L: Ledger + Naming, B: FederateAmbassador, P: Publisher<L>, H: History<L, B>>(
    rt: &impl Wait,
    mut federate: Federate<L, B, P, H>,
    deed: Deed,
) -> Acted<L, B, P, H>
    ensures done { DoesDeed federate deed result.outcome result.player }
    ensures gone { IsGoneBy deed result.outcome result.player }
{
    match deed {
        Deed::Tick => {
            let outcome = outcome_of_tick(federate.tick(rt));
            Acted {
                player: Player::Joined(federate),
                outcome,
            }
        }
        Deed::Serve(service) => serve(rt, federate, service),
        Deed::Refused(fault) => Acted {
            player: Player::Joined(federate),
            outcome: Outcome::Refused(fault),
        },
    }
}

impl<L: Ledger + Naming, B: FederateAmbassador, P: Publisher<L>, H: History<L, B>> Player<
    L,
    B,
    P,
    H,
> {
    /// Ends the caller: what it leaves behind. A federate that has not resigned stays joined.
    pub fn leave(self) -> Left<L, B>
        ensures { result.caller ≡ caller_of self }
    {
        match self {
            Player::Joined(federate) => federate.leave(),
            Player::Gone(left) => left,
        }
    }
}
