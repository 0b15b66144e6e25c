//! Which wires messages go along.

ghost use Rattle.std.specs.Prelude.{◌≡◌};
ghost use Rattle.hla_members.specs.Wiring.{source, target};

use hla_base::FederateNo;

/// Which wires a set of messages goes along: those from one federate to each other one, or those from each other one to
/// one.
#[derive(Clone, Copy, Debug)]
pub enum Direction {
    From(FederateNo),
    To(FederateNo),
}

impl Direction {
    /// The federate at the beginning of the wire that has a peer at its other end.
    pub fn source(self, peer: FederateNo) -> FederateNo
        ensures { result ≡ source self peer }
    {
        match self {
            Direction::From(federate) => federate,
            Direction::To(_) => peer,
        }
    }

    /// The federate at the end of that wire.
    pub fn target(self, peer: FederateNo) -> FederateNo
        ensures { result ≡ target self peer }
    {
        match self {
            Direction::From(_) => peer,
            Direction::To(federate) => federate,
        }
    }
}
