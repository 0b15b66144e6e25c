//! Discoveries that federates are to make (HLA 1.3, declaration management and object management).

ghost use Rattle.std.specs.Prelude.{◌≡◌, ◌<◌, ◌≤◌, ◌++◌, length, OnOk, IfErr};
ghost use Rattle.hla_base.specs.declared.fault.Fault.TheVariants.{OutOfMemory};
ghost use Rattle.hla_base.specs.Tables.{upd};
ghost use Rattle.hla_machine.specs.Directory.{Directory};
ghost use Rattle.hla_accounts.specs.Accounts.{central_with, offers_from};

use crate::accounts::Accounts;
use crate::offers::Offer;
use hla_base::{Fault, FederateNo};

impl Accounts {
    /// Discoveries wait for a federate, behind the others, in this order (Subscribe Object Class Attributes). `OutOfMemory`
    /// where a growth was refused; nothing is said of the accounts then.
    pub fn add_offers(&mut self, federate: FederateNo, offers: Vec<Offer>) -> Result<(), Fault>
        requires some { 0 < federate }
        requires within { federate ≤ length self.old }
        ensures ok { OnOk result
            ((d : Directory)
            → let c = central_with d self.old in central_with d self.new
            ≡ record c {
              discoveries = λ g. upd (c.discoveries g) federate
                  (c.discoveries g federate ++ offers_from g offers.items);
            }) }
        ensures err { IfErr result (λ e. e ≡ Fault.OutOfMemory) }
    {
        self.accounts[federate as usize - 1].offers.add_all(offers)
    }
}
