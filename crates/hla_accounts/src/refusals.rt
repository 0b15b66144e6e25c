//! Which fault a step is refused with, as far as it rests on who has joined.

ghost use Rattle.std.specs.Prelude.{◌≡◌, ◌&&◌, ◌∷◌, [], not};
ghost use Rattle.std.specs.List.{list_any};
ghost use Rattle.std.specs.Str.{bytes_eq};
ghost use Rattle.hla_base.specs.Limits.{max_federate_name};
ghost use Rattle.hla_base.specs.RowRefusals.{first_fault};
ghost use Rattle.hla_machine.specs.declared.step.Step.TheVariants as step;
ghost use Rattle.hla_machine.specs.Directory.{Directory};
ghost use Rattle.hla_machine.specs.Refusals.{refusal, joined_test, is_name_joined, is_length_in};
ghost use Rattle.hla_machine.specs.Machine.{central_seen};
ghost use Rattle.hla_machine.specs.Runs.{is_joined_by_any};
ghost use Rattle.hla_accounts.specs.declared.account.Account.{Account};
ghost use Rattle.hla_accounts.specs.Accounts.{central_with};

use crate::account::Account;
use crate::accounts::Accounts;
use hla_base::{Fault, FederateNo, MAX_FEDERATE_NAME, MAX_JOINS};

/// Whether one of these is joined.
fn is_one_joined(accounts: &[Account]) -> bool
    ensures { result ≡ list_any (λ (a : Account). a.is_joined) accounts.now }
{
    accounts.iter().any(|account| account.is_joined)
}

/// Whether one of these is joined under a name.
fn is_one_joined_as(accounts: &[Account], name: &[u8]) -> bool
    ensures { result
        ≡ list_any (λ (a : Account). a.is_joined && bytes_eq a.name name.now) accounts.now }
{
    accounts.iter().any(|account| account.is_joined && account.name.as_slice() == name)
}

/// Whether a name is none that a federate may have: it is empty or too long.
fn is_bad_name(name: &[u8]) -> bool
    ensures { result ≡ not (is_length_in 1 max_federate_name name.now) }
{
    name.is_empty() || name.len() > MAX_FEDERATE_NAME
}

impl Accounts {
    /// Why a federate may not call, announce or tick, if it may not: it is not joined.
    pub fn caller_fault(&self, federate: FederateNo) -> Option<Fault>
        ensures { (d : Directory)
            → result ≡ first_fault (joined_test (central_with d self.now).directory federate ∷ []) }
    {
        if self.is_joined(federate) {
            None
        } else {
            Some(Fault::FederateNotExecutionMember)
        }
    }

    /// Why nothing may be carried from a federate to another, if it may not: a wire leads to one that is joined, from one
    /// that ever was.
    pub fn carry_fault(&self, from: FederateNo, to: FederateNo) -> Option<Fault>
        ensures { (d : Directory)
            → result ≡ refusal (central_seen (central_with d self.now)) (step.Carry from to) }
    {
        if !self.is_joined(to) || from == to || from == 0 || from >= self.next_federate() {
            Some(Fault::FederateNotExecutionMember)
        } else {
            None
        }
    }

    /// Whether any federate is joined.
    pub fn is_any_joined(&self) -> bool
        ensures { (d : Directory) → result ≡ is_joined_by_any (central_with d self.now) }
    {
        is_one_joined(&self.accounts)
    }

    /// Whether a joined federate has this name.
    fn is_named(&self, name: &[u8]) -> bool
        ensures { (d : Directory)
            → result ≡ is_name_joined (central_with d self.now).directory name.now }
    {
        is_one_joined_as(&self.accounts, name)
    }

    /// Why no federate may join under a name, if it may not (Join Federation Execution): a joined one has it, or there were
    /// `MAX_JOINS`, or the name is empty or too long.
    pub fn join_fault(&self, name: &[u8]) -> Option<Fault>
        ensures { (d : Directory)
            → result ≡ refusal (central_seen (central_with d self.now)) (step.Join name.now) }
    {
        if self.is_named(name) {
            Some(Fault::FederateAlreadyExecutionMember)
        } else if self.next_federate() as usize > MAX_JOINS || is_bad_name(name) {
            Some(Fault::LimitReached)
        } else {
            None
        }
    }
}
