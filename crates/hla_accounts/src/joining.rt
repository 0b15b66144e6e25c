//! Joining and leaving (HLA 1.3, federation management).

ghost use Rattle.std.specs.Prelude.{◌≡◌, ◌<◌, ◌≤◌, length, map, OnOk, IfErr};
ghost use Rattle.hla_base.specs.declared.fault.Fault.TheVariants.{OutOfMemory};
ghost use Rattle.hla_base.specs.Limits.{max_joins};
ghost use Rattle.hla_machine.specs.Directory.{Directory, without_member};
ghost use Rattle.hla_machine.specs.Machine.{after_join};
ghost use Rattle.hla_synchronization.specs.Points.{announcement_of};
ghost use Rattle.hla_accounts.specs.Accounts.{central_with};
ghost use Rattle.hla_accounts.specs.Notices.{without_federate};

use crate::account::Account;
use crate::accounts::Accounts;
use crate::notices::Notices;
use hla_base::{Fault, FederateNo, List};
use std::alloc::Global;

impl Accounts {
    /// A federate joins, under the next number (Join Federation Execution), and is to be told of each open synchronization
    /// point. The caller says what it is to be told. `OutOfMemory` where a growth was refused; nothing is said of the accounts
    /// then.
    pub fn join(&mut self, name: List<u8>, notices: Notices, alloc: Global) -> Result<(), Fault>
        requires { length self.old < max_joins }
        ensures ok { OnOk result
            ((d : Directory) → notices ≡ map announcement_of d.points
            → central_with d self.new ≡ after_join (central_with d self.old) name) }
        ensures err { IfErr result (λ e. e ≡ Fault.OutOfMemory) }
    {
        match self.accounts.push(Account::new(name, notices, alloc)) {
            Ok(()) => Ok(()),
            Err(_) => Err(Fault::OutOfMemory),
        }
    }

    /// A federate leaves (Resign Federation Execution): what is for it goes, and what it sent stays. No point closes for it yet.
    pub fn leave(&mut self, federate: FederateNo)
        requires some { 0 < federate }
        requires within { federate ≤ length self.old }
        ensures { (d : Directory)
            → central_with (without_member d federate) self.new ≡ without_federate
            (central_with d self.old) federate }
    {
        self.accounts[federate as usize - 1].leave();
    }
}
