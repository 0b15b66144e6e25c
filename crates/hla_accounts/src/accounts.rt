//! The federates of an execution.

ghost use Rattle.std.specs.Prelude.{◌≡◌, ◌≤◌, ◌<◌, ◌+◌, [], length, MatchOption, IsTrue};
ghost use Rattle.std.specs.Option.{option_copied};
ghost use Rattle.hla_base.specs.Limits.{max_joins};
ghost use Rattle.hla_retraction.specs.SentRows.{sent_of};
ghost use Rattle.hla_accounts.specs.Accounts.{account_at, no_account, AreKept};
ghost use Rattle.hla_bags.specs.Bags.{waiting_at};
ghost use Rattle.hla_accounts.specs.Bounds.{is_retracted};

use crate::account::Account;
use hla_bags::Waiting;
use hla_base::{EventHandle, FederateNo};
use std::alloc::Global;
use std::marker::Model;

/// The federates that have ever joined, by number, counted from 1. Contracts see the list; `central_with` reads it as
/// the tables of the central machine.
#[derive(Debug, Drop)]
pub struct Accounts {
    pub(crate) accounts: Vec<Account>,
}

impl Model for Accounts {
    ghost use Rattle.std.specs.Prelude.{List};
    ghost use Rattle.hla_accounts.specs.declared.account.Account.{Account};
    ghost use Rattle.hla_accounts.specs.Accounts.{AreKept};

    ghost Value = { List Account };

    ghost view = { λ a. a.accounts.items };

    ghost invariant = { λ a. AreKept a.accounts.items };
}

impl Accounts {
    /// Nobody; it takes no memory.
    pub fn new(alloc: Global) -> Accounts
        ensures { result ≡ [] }
    {
        Accounts {
            accounts: Vec::new(alloc),
        }
    }

    /// The number of the federate that joins next.
    pub fn next_federate(&self) -> FederateNo
        ensures number { result ≡ length self.now + 1 }
        ensures few { result ≤ max_joins + 1 }
        ensures kept { AreKept self.now }
    {
        self.accounts.len() as FederateNo + 1
    }

    /// The account of a federate, if it has ever joined.
    pub fn get(&self, federate: FederateNo) -> Option<&Account>
        ensures { MatchOption result (account_at self.now federate ≡ no_account)
            (λ a. account_at self.now federate ≡ a.now) }
    {
        if federate == 0 {
            None
        } else {
            self.accounts.get(federate as usize - 1)
        }
    }

    /// The message that an event handle names, if it waits for a federate. It takes the time of `Bag::find`.
    pub fn find(&self, federate: FederateNo, event: EventHandle) -> Option<&Waiting>
        ensures { option_copied result ≡ waiting_at (account_at self.now federate).bag event.sender
            event.serial }
    {
        match self.get(federate) {
            Some(account) => account.bag.find(event),
            None => None,
        }
    }

    /// Whether a federate is joined.
    pub fn is_joined(&self, federate: FederateNo) -> bool
        ensures { result ≡ (account_at self.now federate).is_joined }
    {
        match self.get(federate) {
            Some(account) => account.is_joined,
            None => false,
        }
    }

    /// Whether a message was retracted. The time grows with the logarithm of the messages that its sender may retract.
    pub fn is_retracted(&self, event: EventHandle) -> bool
        ensures { result ≡ is_retracted self.now event.sender event.serial }
    {
        match self.get(event.sender) {
            Some(account) => account.sent.is_retracted(event.serial),
            None => false,
        }
    }
}
