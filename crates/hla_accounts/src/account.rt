//! What is kept of one federate.

ghost use Rattle.std.specs.Prelude.{◌≡◌, ℕ, ◌≤◌, ◌+◌, true, false, [], OnOk, OnErr, IfErr};
ghost use Rattle.hla_base.specs.declared.fault.Fault.TheVariants.{OutOfMemory};
ghost use Rattle.hla_base.specs.Limits.{max_serial};
ghost use Rattle.hla_base.specs.Rows.{new_row};
ghost use Rattle.hla_base.specs.Tables.{upd};
ghost use Rattle.hla_base.specs.FederateSets.{federate_set};
ghost use Rattle.hla_retraction.specs.SentEvents.{no_event};
ghost use Rattle.hla_retraction.specs.SentRows.{sent_of};

use crate::handles::Handles;
use crate::notices::Notices;
use crate::offers::Offers;
use hla_bags::Bag;
use hla_base::{Fault, FederateSet, List, Serial, Ticks};
use hla_retraction::Sent;
use hla_time_roles::TimeState;
use std::alloc::Global;

/// A federate that has joined. One that has resigned keeps its name, its next serial and what it sent.
#[derive(Debug, Drop)]
pub struct Account {
    pub name: List<u8>,
    pub is_joined: bool,
    /// Its row: its roles and its time.
    pub state: TimeState,
    pub next_serial: Serial,
    /// What it sent and may retract.
    pub sent: Sent,
    /// What it has not picked up.
    pub bag: Bag,
    /// The discoveries that it has not picked up, the oldest first.
    pub offers: Offers,
    /// The events whose retraction is under way to it.
    pub owed: Handles,
    /// The events that it is to be asked to take back.
    pub due: Handles,
    /// What it is to be told of synchronization points, the first first.
    pub notices: Notices,
}

impl Account {
    /// Of a federate that has just joined, and what it is to be told; it takes no memory.
    pub fn new(name: List<u8>, notices: Notices, alloc: Global) -> Account
        ensures account { result ≡ record {
          name = name;
          is_joined = true;
          state = new_row;
          next_serial = 1;
          sent = result.sent;
          bag = [];
          offers = [];
          owed = [];
          due = [];
          notices = notices;
        } }
        ensures unsent { sent_of result.sent ≡ (λ _. no_event) }
    {
        Account {
            name,
            is_joined: true,
            state: TimeState::new(),
            next_serial: 1,
            sent: Sent::new(alloc),
            bag: Bag::new(alloc),
            offers: Offers::new(alloc),
            owed: Handles::new(alloc),
            due: Handles::new(alloc),
            notices,
        }
    }

    /// The federate has resigned: what is for it goes, and what it sent stays.
    pub fn leave(&mut self)
        ensures { self.new ≡ record self.old {
          is_joined = false;
          state = new_row;
          bag = [];
          offers = [];
          owed = [];
          due = [];
          notices = [];
        } }
    {
        self.is_joined = false;
        self.state = TimeState::new();
        self.bag.clear();
        self.offers.clear();
        self.owed.clear();
        self.due.clear();
        self.notices.clear();
    }

    /// A message was sent that may not be retracted: it took the next serial.
    pub fn take_serial(&mut self)
        requires { self.old.next_serial ≤ max_serial }
        ensures { self.new ≡ record self.old { next_serial = self.old.next_serial + 1 } }
    {
        self.next_serial += 1;
    }

    /// A message was sent that may be retracted: it took the next serial. Its stamp is in ticks. `OutOfMemory`, and all as
    /// it was, where a growth was refused.
    pub fn note(&mut self, stamp: Ticks, receivers: FederateSet) -> Result<(), Fault>
        requires unsent { (m : ℕ) → self.old.next_serial ≤ m → sent_of self.old.sent m ≡ no_event }
        requires room { self.old.next_serial ≤ max_serial }
        ensures account { OnOk result
            (self.new ≡ record self.old {
              next_serial = self.old.next_serial + 1;
              sent = self.new.sent;
            }) }
        ensures sent { OnOk result (sent_of self.new.sent ≡ upd (sent_of self.old.sent)
            self.old.next_serial (record {
              stamp = stamp;
              retractable = true;
              retracted = false;
              receivers = federate_set receivers;
            })) }
        ensures err { IfErr result (λ e. e ≡ Fault.OutOfMemory) }
        ensures unchanged { OnErr result (self.new ≡ self.old) }
    {
        self.sent.note(self.next_serial, stamp, receivers)?;
        self.next_serial += 1;
        Ok(())
    }
}
