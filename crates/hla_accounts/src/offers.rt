//! Discoveries and requests of retraction that a federate may pick up (HLA 1.3, object management and time management).

ghost use Rattle.std.specs.Prelude.{◌≡◌, ◌↔◌, ℕ, ◌≤◌, ◌<◌, ◌++◌, ◌∷◌, [], cond, drop, length, IsTrue, OnOk, OnErr, IfErr, eqb, find};
ghost use Rattle.std.specs.List.{position};
ghost use Rattle.std.specs.Option.{option_copied};
ghost use Rattle.hla_base.specs.declared.fault.Fault.TheVariants.{OutOfMemory};
ghost use Rattle.hla_base.specs.Tables.{upd2};
ghost use Rattle.hla_machine.specs.Directory.{Directory};
ghost use Rattle.hla_machine.specs.Callbacks.{IsNextDiscovery};
ghost use Rattle.hla_accounts.specs.declared.offers.Offer.{Offer};
ghost use Rattle.hla_accounts.specs.Accounts.{account_at, central_with, offers_from};
ghost use Rattle.hla_bags.specs.Bags.{is_listed};

use crate::accounts::Accounts;
use hla_base::{Discovery, EventHandle, Fault, FederateNo, Plain};
use std::alloc::Global;
use std::marker::Model;

/// A discovery that a federate has not picked up.
#[derive(Debug, Drop)]
pub struct Offer {
    /// The federate whose object it is.
    pub from: FederateNo,
    pub discovery: Discovery,
}

/// The discoveries that a federate has not picked up, the oldest first. Contracts see the list.
#[derive(Debug, Drop)]
pub struct Offers {
    offers: Vec<Offer>,
}

impl Model for Offers {
    ghost use Rattle.std.specs.Prelude.{List};
    ghost use Rattle.hla_accounts.specs.declared.offers.Offer.{Offer};

    ghost Value = { List Offer };

    ghost view = { λ o. o.offers.items };
}

impl Offers {
    /// No discovery; it takes no memory.
    pub fn new(alloc: Global) -> Offers
        ensures { result ≡ [] }
    {
        Offers {
            offers: Vec::new(alloc),
        }
    }

    /// All of them, the oldest first.
    pub fn as_slice(&self) -> &[Offer]
        ensures { result.now ≡ self.now }
    {
        self.offers.as_slice()
    }

    /// Adds one behind the others; `OutOfMemory`, and all as it was, where a growth was refused.
    pub fn add(&mut self, offer: Offer) -> Result<(), Fault>
        ensures ok { OnOk result (self.new ≡ self.old ++ offer ∷ []) }
        ensures err { IfErr result (λ e. e ≡ Fault.OutOfMemory) }
        ensures unchanged { OnErr result (self.new ≡ self.old) }
    {
        match self.offers.push(offer) {
            Ok(()) => Ok(()),
            Err(_) => Err(Fault::OutOfMemory),
        }
    }

    /// Adds these behind the others, in their order. `OutOfMemory` where a growth was refused; some may be added then.
    pub fn add_all(&mut self, offers: Vec<Offer>) -> Result<(), Fault>
        ensures ok { OnOk result (self.new ≡ self.old ++ offers.items) }
        ensures err { IfErr result (λ e. e ≡ Fault.OutOfMemory) }
    {
        for offer in offers {
            self.add(offer)?;
        }
        Ok(())
    }

    /// Takes the first out that is of a federate's object, if there is one. It looks at each.
    pub fn take_first(&mut self, from: FederateNo)
        ensures { (g : ℕ)
            → offers_from g self.new ≡ cond (eqb from g) (drop 1 (offers_from g self.old))
            (offers_from g self.old) }
    {
        match self.place_of(from) {
            Some(place) => {
                self.offers.remove(place);
            }
            None => {}
        }
    }

    fn place_of(&self, from: FederateNo) -> Option<usize>
        ensures { result ≡ position (λ (o : Offer). eqb o.from from) self.now }
    {
        self.offers.iter().position(|offer| offer.from == from)
    }

    /// There is none any more.
    pub fn clear(&mut self)
        ensures { self.new ≡ [] }
    {
        self.offers.clear();
    }
}

/// The first discovery of a federate's objects among these.
fn first_offer(offers: &[Offer], from: FederateNo) -> Option<&Offer>
    ensures { option_copied result ≡ find (λ (o : Offer). eqb o.from from) offers.now }
{
    offers.iter().find(|offer| offer.from == from)
}

/// Whether the first discovery of a federate's objects among these is this one.
fn is_first_offer(offers: &[Offer], from: FederateNo, discovery: &Discovery) -> bool
    ensures { IsTrue result ↔ IsNextDiscovery (offers_from from offers.now) discovery.now }
{
    match first_offer(offers, from) {
        Some(offer) => offer.discovery.is_same(discovery),
        None => false,
    }
}

impl Accounts {
    /// Whether a discovery is the next that a federate picks up of another's objects (Discover Object Instance). It looks at
    /// the discoveries that stand before it.
    pub fn is_next_offer(
        &self,
        federate: FederateNo,
        from: FederateNo,
        discovery: &Discovery,
    ) -> bool
        ensures { IsTrue result
            ↔ IsNextDiscovery (offers_from from (account_at self.now federate).offers)
            discovery.now }
    {
        match self.get(federate) {
            Some(account) => is_first_offer(account.offers.as_slice(), from, discovery),
            None => false,
        }
    }

    /// Whether a federate is to be asked to take an event back (Request Retraction).
    pub fn is_due(&self, federate: FederateNo, event: EventHandle) -> bool
        ensures { result ≡ is_listed (account_at self.now federate).due event.sender event.serial }
    {
        match self.get(federate) {
            Some(account) => account.due.has(event),
            None => false,
        }
    }

    /// The first discovery of a federate's objects that waits for a federate waits no longer (Discover Object Instance). It
    /// looks at all that wait for the federate.
    pub fn take_offer(&mut self, federate: FederateNo, from: FederateNo)
        requires some { 0 < federate }
        requires within { federate ≤ length self.old }
        ensures { (d : Directory) → let c = central_with d self.old
            in central_with d self.new ≡ record c {
              discoveries = upd2 c.discoveries from federate (drop 1 (c.discoveries from federate));
            } }
    {
        self.accounts[federate as usize - 1].offers.take_first(from);
    }
}
