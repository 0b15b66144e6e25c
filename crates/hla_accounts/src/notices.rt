//! What federates are to be told of synchronization points (HLA 1.3, federation management).

ghost use Rattle.std.specs.Prelude.{◌≡◌, ◌↔◌, ◌≤◌, ◌<◌, ◌++◌, ◌∷◌, [], drop, eqb, length, IsTrue, OnOk, OnErr, IfErr};
ghost use Rattle.hla_base.specs.declared.fault.Fault.TheVariants.{OutOfMemory};
ghost use Rattle.hla_base.specs.Tables.{upd};
ghost use Rattle.hla_machine.specs.Directory.{Directory};
ghost use Rattle.hla_machine.specs.Callbacks.{IsNextNotice};
ghost use Rattle.hla_machine.specs.Machine.{with_told};
ghost use Rattle.hla_accounts.specs.Accounts.{account_at, central_with};
ghost use Rattle.hla_accounts.specs.Notices.{told_alone, told_to_all};

use crate::accounts::Accounts;
use hla_base::{Fault, FederateNo, Notice, Plain};
use std::marker::Model;

/// What a federate is to be told of synchronization points, the first first. Contracts see the list.
#[derive(Debug, Drop)]
pub struct Notices {
    notices: Vec<Notice>,
}

impl Model for Notices {
    ghost use Rattle.std.specs.Prelude.{List};
    ghost use Rattle.hla_base.specs.declared.notice.Notice.{Notice};

    ghost Value = { List Notice };

    ghost view = { λ n. n.notices.items };
}

impl Notices {
    /// These, in their order.
    pub fn from_vec(notices: Vec<Notice>) -> Notices
        ensures { result ≡ notices.items }
    {
        Notices { notices }
    }

    /// Whether there is none.
    pub fn is_empty(&self) -> bool
        ensures { result ≡ eqb (length self.now) 0 }
    {
        self.notices.is_empty()
    }

    /// Whether this is what is told next.
    pub fn is_next(&self, notice: &Notice) -> bool
        ensures { IsTrue result ↔ IsNextNotice self.now notice.now }
    {
        match self.notices.first() {
            Some(first) => first.is_same(notice),
            None => false,
        }
    }

    /// Adds one behind the others; `OutOfMemory`, and all as it was, where a growth was refused.
    pub fn add(&mut self, notice: Notice) -> Result<(), Fault>
        ensures ok { OnOk result (self.new ≡ self.old ++ notice ∷ []) }
        ensures err { IfErr result (λ e. e ≡ Fault.OutOfMemory) }
        ensures unchanged { OnErr result (self.new ≡ self.old) }
    {
        match self.notices.push(notice) {
            Ok(()) => Ok(()),
            Err(_) => Err(Fault::OutOfMemory),
        }
    }

    /// Takes the first out, if there is one. It moves all the others.
    pub fn take_first(&mut self)
        ensures { self.new ≡ drop 1 self.old }
    {
        if !self.notices.is_empty() {
            self.notices.remove(0);
        }
    }

    /// There is none any more.
    pub fn clear(&mut self)
        ensures { self.new ≡ [] }
    {
        self.notices.clear();
    }
}

impl Accounts {
    /// Whether this is what a federate is told next of synchronization points.
    pub fn is_next_notice(&self, federate: FederateNo, notice: &Notice) -> bool
        ensures { IsTrue result ↔ IsNextNotice (account_at self.now federate).notices notice.now }
    {
        match self.get(federate) {
            Some(account) => account.notices.is_next(notice),
            None => false,
        }
    }

    /// What a federate is told first of synchronization points has been told. It moves all that is to be told it.
    pub fn take_notice(&mut self, federate: FederateNo)
        requires some { 0 < federate }
        requires within { federate ≤ length self.old }
        ensures { (d : Directory) → let c = central_with d self.old
            in central_with d self.new ≡ record c {
              notices = upd c.notices federate (drop 1 (c.notices federate));
            } }
    {
        self.accounts[federate as usize - 1].notices.take_first();
    }

    /// A federate is to be told this, behind the rest. `OutOfMemory` where a growth was refused; nothing is said of the
    /// accounts then.
    pub fn tell(&mut self, federate: FederateNo, notice: Notice) -> Result<(), Fault>
        requires some { 0 < federate }
        requires within { federate ≤ length self.old }
        ensures ok { OnOk result
            ((d : Directory)
            → central_with d self.new
            ≡ with_told (central_with d self.old) (told_alone federate notice)) }
        ensures err { IfErr result (λ e. e ≡ Fault.OutOfMemory) }
    {
        self.accounts[federate as usize - 1].notices.add(notice)
    }

    /// Each joined federate is to be told this, behind the rest. `OutOfMemory` where a growth was refused; nothing is said of
    /// the accounts then.
    pub fn tell_all(&mut self, notice: &Notice) -> Result<(), Fault>
        ensures ok { OnOk result
            ((d : Directory)
            → let c = central_with d self.old in central_with d self.new
            ≡ with_told c (told_to_all c.directory notice.now)) }
        ensures err { IfErr result (λ e. e ≡ Fault.OutOfMemory) }
    {
        for federate in 1..self.next_federate() {
            if self.is_joined(federate) {
                let own = notice.copy()?;
                self.tell(federate, own)?;
            }
        }
        Ok(())
    }
}
