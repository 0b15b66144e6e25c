//! The messages of one federate that may be retracted.

ghost use Rattle.std.specs.Prelude.{◌≡◌, ℕ, ◌≤◌, true, false, OnOk, OnErr, IfErr, MatchOption};
ghost use Rattle.hla_base.specs.declared.fault.Fault.TheVariants.{OutOfMemory};
ghost use Rattle.hla_base.specs.declared.row.TimeRow.{TimeRow};
ghost use Rattle.hla_base.specs.Rows.{is_enabled, least_stamp};
ghost use Rattle.hla_base.specs.Tables.{upd};
ghost use Rattle.hla_retraction.specs.SentEvents.{no_event, may_retract};
ghost use Rattle.hla_base.specs.FederateSets.{federate_set};
ghost use Rattle.hla_retraction.specs.SentRows.{sent_of, row_event, IsRowAt};

use hla_base::{Fault, FederateNo, FederateSet, Serial, Ticks};
use std::alloc::Global;
use std::marker::Model;

/// A message that may be retracted: an update or an interaction that was sent in time-stamp order.
#[derive(Debug, Drop)]
pub struct SentRow {
    /// The sender's serial of it.
    pub serial: Serial,
    /// The stamp, in ticks.
    pub stamp: Ticks,
    /// Whether it was retracted.
    pub retracted: bool,
    /// To which federates it was sent.
    pub receivers: FederateSet,
}

/// What one federate sent in time-stamp order and may take back (HLA 1.3, Retract). Contracts see the rows, by rising
/// serial; `sent_of` reads them as a table by serial, counted from 1.
#[derive(Debug, Drop)]
pub struct Sent {
    rows: Vec<SentRow>,
}

impl Model for Sent {
    ghost use Rattle.std.specs.Prelude.{List};
    ghost use Rattle.hla_retraction.specs.declared.sent.SentRow.{SentRow};
    ghost use Rattle.hla_retraction.specs.SentRows.{AreRising};

    ghost Value = { List SentRow };

    ghost view = { λ s. s.rows.items };

    ghost invariant = { λ s. AreRising s.rows.items };
}

impl Sent {
    /// Nothing was sent; it takes no memory.
    pub fn new(alloc: Global) -> Sent
        ensures { sent_of result ≡ (λ _. no_event) }
    {
        Sent {
            rows: Vec::new(alloc),
        }
    }

    /// A message was sent with this serial and this stamp, in ticks, to these receivers (HLA 1.3, Update Attribute Values
    /// and Send Interaction). `OutOfMemory`, and the table as it was, where a growth was refused. Over many calls the time
    /// of one is constant.
    pub fn note(
        &mut self,
        serial: Serial,
        stamp: Ticks,
        receivers: FederateSet,
    ) -> Result<(), Fault>
        requires { (m : ℕ) → serial ≤ m → sent_of self.old m ≡ no_event }
        ensures ok { OnOk result (sent_of self.new ≡ upd (sent_of self.old) serial (record {
          stamp = stamp;
          retractable = true;
          retracted = false;
          receivers = federate_set receivers;
        })) }
        ensures err { IfErr result (λ e. e ≡ Fault.OutOfMemory) }
        ensures unchanged { OnErr result (self.new ≡ self.old) }
    {
        let row = SentRow {
            serial,
            stamp,
            retracted: false,
            receivers,
        };
        match self.rows.push(row) {
            Ok(()) => Ok(()),
            Err(_) => Err(Fault::OutOfMemory),
        }
    }

    /// Whether the sender may retract the message with this serial: it regulates, the message is in the table and was not
    /// retracted before, and its stamp is above `least`, the least stamp that the sender may now send, in ticks (HLA 1.3,
    /// Retract; the bound is this profile's). The time grows with the logarithm of the messages.
    pub fn may_retract(&self, is_regulating: bool, least: Ticks, serial: Serial) -> bool
        ensures { (r : TimeRow) → is_enabled r.regulating ≡ is_regulating → least_stamp r ≡ least
            → result ≡ may_retract r (sent_of self.now serial) }
    {
        match self.row(serial) {
            Some(row) => is_regulating && !row.retracted && least < row.stamp,
            None => false,
        }
    }

    /// Whether the message with this serial was sent to a federate; none was where the table has no such message. The
    /// time grows with the logarithm of the messages.
    pub fn is_receiver(&self, serial: Serial, federate: FederateNo) -> bool
        ensures { result ≡ (sent_of self.now serial).receivers federate }
    {
        match self.row(serial) {
            Some(row) => row.receivers.has(federate),
            None => false,
        }
    }

    /// Whether the message with this serial was retracted; none was where the table has no such message. The time grows
    /// with the logarithm of the messages.
    pub fn is_retracted(&self, serial: Serial) -> bool
        ensures { result ≡ (sent_of self.now serial).retracted }
    {
        match self.row(serial) {
            Some(row) => row.retracted,
            None => false,
        }
    }

    /// The message with this serial is retracted from now on (HLA 1.3, Retract); the others are as before. It takes no
    /// memory, and time that grows with the logarithm of the messages.
    pub fn retract(&mut self, serial: Serial)
        requires { (sent_of self.old serial).retractable ≡ true }
        ensures { sent_of self.new ≡ upd (sent_of self.old) serial
            (record (sent_of self.old serial) { retracted = true }) }
    {
        if let Some(place) = self.place_of(serial) {
            self.rows[place].retracted = true;
        }
    }

    fn row(&self, serial: Serial) -> Option<&SentRow>
        ensures { MatchOption result (sent_of self.now serial ≡ no_event)
            (λ row. sent_of self.now serial ≡ row_event row.now) }
    {
        let place = self.place_of(serial)?;
        Some(&self.rows[place])
    }

    fn place_of(&self, serial: Serial) -> Option<usize>
        ensures { MatchOption result (sent_of self.now serial ≡ no_event)
            (IsRowAt self.now serial) }
    {
        self.rows
            .binary_search_by_key(&serial, |row| row.serial)
            .ok()
    }
}
