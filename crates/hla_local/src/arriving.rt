//! Messages that come to a component.

ghost use Rattle.std.specs.Prelude.{◌≡◌, ◌≤◌, ◌<◌, true, OnOk, OnErr, IfErr};
ghost use Rattle.hla_base.specs.Limits.{max_joins};
ghost use Rattle.hla_null_message.specs.declared.message.Message.TheVariants as message;
ghost use Rattle.hla_lbts.specs.Peers.{peers_of};
ghost use Rattle.hla_component_rules.specs.Arriving.{local_accepting, peers_accepting, MayCome, message_takes_memory};

use crate::local::Local;
use hla_base::{Discovery, EventHandle, FederateNo, Plain, Serial, SharedEvent};
use hla_null_message::Message;
use hla_order_queues::Control;

impl Local {
    /// A message comes from a peer. An event joins the queue in time-stamp order, if it was sent in that order and the
    /// federate is constrained or has asked to be, and else that in receive order; a null message of the peer's present epoch
    /// raises what is known of the peer; a retraction takes the event out of its queue, or asks the federate to take it back;
    /// a discovery is to be given. Where a growth was refused the message comes back, and all is as it was; that never
    /// happens to a null message.
    pub fn accept(&mut self, from: FederateNo, message: Message) -> Result<(), Message>
        requires some { 0 < from }
        requires within { from ≤ max_joins }
        requires may_come { MayCome from message self.old }
        ensures ok { OnOk result (self.new ≡ record (local_accepting from message self.old) {
          peers = self.new.peers;
        }) }
        ensures peers { OnOk result (peers_of self.new.peers ≡
            peers_accepting from message (peers_of self.old.peers)) }
        ensures err { IfErr result (λ m. m ≡ message) }
        ensures memory { OnErr result (message_takes_memory message ≡ true) }
        ensures unchanged { OnErr result (self.new ≡ self.old) }
    {
        match message {
            Message::Event(event) => self.accept_event(from, event),
            Message::Null { epoch, bound } => {
                self.peers.accept(from, epoch, bound);
                Ok(())
            }
            Message::Retraction(serial) => self.accept_retraction(from, serial),
            Message::Discovery(discovery) => self.accept_discovery(from, discovery),
        }
    }

    fn accept_event(&mut self, from: FederateNo, shared: SharedEvent) -> Result<(), Message>
        requires { MayCome from (message.Event shared) self.old }
        ensures ok { OnOk result (self.new ≡ local_accepting from (message.Event shared) self.old) }
        ensures err { IfErr result (λ m. m ≡ message.Event shared) }
        ensures unchanged { OnErr result (self.new ≡ self.old) }
    {
        let Ok(event) = shared.as_event().copy() else {
            return Err(Message::Event(shared));
        };
        if event.ordered && self.state.is_order_kept() {
            return match self.ordered.insert(event) {
                Ok(()) => Ok(()),
                Err(_) => Err(Message::Event(shared)),
            };
        }
        if self.received.reserve_one().is_err() {
            return Err(Message::Event(shared));
        }
        self.received.put(event);
        Ok(())
    }

    fn accept_retraction(&mut self, from: FederateNo, serial: Serial) -> Result<(), Message>
        requires { MayCome from (message.Retraction serial) self.old }
        ensures ok { OnOk result
            (self.new ≡ local_accepting from (message.Retraction serial) self.old) }
        ensures err { IfErr result (λ m. m ≡ message.Retraction serial) }
        ensures unchanged { OnErr result (self.new ≡ self.old) }
    {
        if self.ordered.remove(from, serial).is_some() {
            return Ok(());
        }
        if self.received.remove(from, serial).is_some() {
            return Ok(());
        }
        if self.controls.reserve(1).is_err() {
            return Err(Message::Retraction(serial));
        }
        let event = EventHandle {
            sender: from,
            serial,
        };
        self.controls
            .push_back_reserved(Control::ToRetract { event });
        Ok(())
    }

    fn accept_discovery(&mut self, from: FederateNo, discovery: Discovery) -> Result<(), Message>
        ensures ok { OnOk result
            (self.new ≡ local_accepting from (message.Discovery discovery) self.old) }
        ensures err { IfErr result (λ m. m ≡ message.Discovery discovery) }
        ensures unchanged { OnErr result (self.new ≡ self.old) }
    {
        if self.controls.reserve(1).is_err() {
            return Err(Message::Discovery(discovery));
        }
        self.controls
            .push_back_reserved(Control::ToDiscover { from, discovery });
        Ok(())
    }
}
