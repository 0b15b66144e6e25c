//! A federate among those of a script, by its number, and what a line has it do.

ghost use Rattle.std.specs.Prelude.{◌≡◌, ◌↔◌, ℕ, None, IfSome, IsTrue};
ghost use Rattle.hla_in_order.specs.Turns.{DoesAt, DoesIn, IsJoinedAs, IsJoinedAt};

use hla_base::{Fault, FederateNo};
use hla_callbacks::FederateAmbassador;
use hla_history::History;
use hla_machine::Outcome;
use hla_monitor::{Naming, Publisher};
use hla_players::{Acted, Deed, Player, do_deed};
use std::sync::Wait;
use std::sync::ledger::Ledger;

/// Whether the federate of a number is here, joined.
fn is_joined_as<L: Ledger + Naming, B: FederateAmbassador, P: Publisher<L>, H: History<L, B>>(
    slot: &Option<Player<L, B, P, H>>,
    number: FederateNo,
) -> bool
    ensures { IsTrue result ↔ IsJoinedAs number slot.now }
{
    match slot {
        Some(Player::Joined(federate)) => federate.number() == number,
        _ => false,
    }
}

/// The place of the joined federate of a number, if there is one.
fn place_of<L: Ledger + Naming, B: FederateAmbassador, P: Publisher<L>, H: History<L, B>>(
    players: &[Option<Player<L, B, P, H>>],
    number: FederateNo,
) -> Option<usize>
    ensures found { IfSome result (λ k. IsJoinedAt players.now k number) }
    ensures none { result ≡ None → (k : ℕ) → IsJoinedAt players.now k number → ⊥ }
{
    for (place, slot) in players.iter().enumerate() {
        if is_joined_as(slot, number) {
            return Some(place);
        }
    }
    None
}

/// Has the federate that is here do something, if it is joined.
fn act_in<L: Ledger + Naming, B: FederateAmbassador, P: Publisher<L>, H: History<L, B>>(
    rt: &impl Wait,
    slot: &mut Option<Player<L, B, P, H>>,
    deed: Deed,
) -> Outcome
    ensures { DoesIn slot.old deed result slot.new }
{
    match slot.take() {
        Some(Player::Joined(federate)) => {
            let Acted { player, outcome } = do_deed(rt, federate, deed);
            *slot = Some(player);
            outcome
        }
        other => {
            drop(deed);
            *slot = other;
            Outcome::Refused(Fault::FederateNotExecutionMember)
        }
    }
}

/// Has the joined federate of a number do something.
pub fn act<L: Ledger + Naming, B: FederateAmbassador, P: Publisher<L>, H: History<L, B>>(
    rt: &impl Wait,
    players: &mut Vec<Option<Player<L, B, P, H>>>,
    number: FederateNo,
    deed: Deed,
) -> Outcome
    ensures { DoesAt players.old.items number deed result players.new.items }
{
    let Some(place) = place_of(players.as_slice(), number) else {
        drop(deed);
        return Outcome::Refused(Fault::FederateNotExecutionMember);
    };
    match players.get_mut(place) {
        Some(slot) => act_in(rt, slot, deed),
        None => {
            drop(deed);
            Outcome::Refused(Fault::FederateNotExecutionMember)
        }
    }
}
