//! Why a federate may not send a message, as far as it rests on its row and its serials (HLA 1.3, object management).

ghost use Rattle.std.specs.Prelude.{◌≡◌, ◌&&◌, ltb, List, length};
ghost use Rattle.std.specs.List.{list_any};
ghost use Rattle.hla_base.specs.Rows.{is_enabled, least_stamp};
ghost use Rattle.hla_catalogue.specs.declared.declared.Order.TheVariants.{Timestamp};
ghost use Rattle.hla_machine.specs.Directory.{Outgoing, is_of_order};
ghost use Rattle.hla_machine.specs.Refusals.{is_bad_stamp, is_out_of_serials};
ghost use Rattle.hla_accounts.specs.Accounts.{account_at};

use crate::accounts::Accounts;
use hla_base::{FederateNo, MAX_SERIAL, MAX_TIME, Ticks};

impl Accounts {
    /// Whether a stamp, in ticks, is below the least that a federate may send in time-stamp order, and it regulates.
    fn is_early(&self, sender: FederateNo, stamp: Ticks) -> bool
        ensures { result ≡ (is_enabled (account_at self.now sender).state.regulating
            && ltb stamp (least_stamp (account_at self.now sender).state)) }
    {
        match self.get(sender) {
            Some(account) => {
                account.state.is_regulation_enabled() && stamp < account.state.least_stamp()
            }
            None => false,
        }
    }

    /// Whether a federate may not send messages with a stamp, in ticks: it is beyond `MAX_TIME`, or one of them goes in
    /// time-stamp order and it is below the least that the federate may send. `is_some_timestamp` says whether the order
    /// of one of them is time-stamp order.
    pub fn is_bad_stamp(
        &self,
        sender: FederateNo,
        stamp: Option<Ticks>,
        is_some_timestamp: bool,
    ) -> bool
        ensures { (outs : List Outgoing) →
            list_any (λ (out : Outgoing). is_of_order Timestamp out.order) outs
            ≡ is_some_timestamp →
            result ≡ is_bad_stamp (account_at self.now sender).state stamp outs }
    {
        match stamp {
            Some(stamp) => stamp > MAX_TIME || (is_some_timestamp && self.is_early(sender, stamp)),
            None => false,
        }
    }

    /// Whether so many messages of a federate would need a serial above `MAX_SERIAL`.
    pub fn is_out_of_serials(&self, sender: FederateNo, count: u64) -> bool
        ensures { (outs : List Outgoing) → length outs ≡ count →
            result ≡ is_out_of_serials (account_at self.now sender).next_serial outs }
    {
        self.next_serial(sender).saturating_add(count) > MAX_SERIAL + 1
    }
}
