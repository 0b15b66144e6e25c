//! What a script says.

ghost use Rattle.std.specs.Prelude.{◌≡◌};
ghost use Rattle.hla_commands.specs.FaultName.{kind_name};

use crate::words::Word;
use hla_base::{AdvanceKind, List};
use hla_catalogue::Order;
use hla_machine::ResignAction;
use thiserror::Error;

/// An attribute or a parameter by its name, with its value.
#[derive(Debug, Drop)]
pub struct NameValuePair<'a> {
    pub name: Word<'a>,
    pub value: Word<'a>,
}

/// What a federate declares of a class.
#[derive(Clone, Copy, Debug, PartialEq, Eq)]
pub enum Declaration {
    /// That it publishes the class.
    Publication,
    /// That it subscribes to the class.
    Subscription,
}

/// What a federate does. Its names and values stay where they stand in the text. Classes, attributes and parameters are
/// named as in the FED file; an object goes by its number, from 1, which may be larger than that of any object. Times,
/// stamps and lookaheads may be larger than any that is allowed.
#[derive(Debug, Drop)]
pub enum Call<'a> {
    /// Tick: it picks up a callback.
    Tick,
    /// Resign Federation Execution.
    Resign {
        action: ResignAction,
    },
    /// Publish Object Class, or Subscribe Object Class Attributes.
    DeclareObject {
        declaration: Declaration,
        class: Word<'a>,
        attributes: List<Word<'a>>,
    },
    /// Unpublish Object Class, or Unsubscribe Object Class.
    WithdrawObject {
        declaration: Declaration,
        class: Word<'a>,
    },
    /// Publish Interaction Class, or Subscribe Interaction Class.
    DeclareInteraction {
        declaration: Declaration,
        class: Word<'a>,
    },
    /// Unpublish Interaction Class, or Unsubscribe Interaction Class.
    WithdrawInteraction {
        declaration: Declaration,
        class: Word<'a>,
    },
    /// Register Object Instance, under a name or under that of its number.
    Register {
        class: Word<'a>,
        name: Option<Word<'a>>,
    },
    /// Update Attribute Values, with a stamp in ticks or with none. The class is where the attributes are looked up.
    Update {
        object: u64,
        class: Word<'a>,
        values: List<NameValuePair<'a>>,
        stamp: Option<u64>,
    },
    /// Send Interaction, with a stamp in ticks or with none.
    Send {
        class: Word<'a>,
        values: List<NameValuePair<'a>>,
        stamp: Option<u64>,
    },
    /// Delete Object Instance, with a stamp in ticks or with none.
    Delete {
        object: u64,
        stamp: Option<u64>,
    },
    /// Change Attribute Order Type. The class is where the attributes are looked up.
    ChangeAttributeOrder {
        object: u64,
        class: Word<'a>,
        order: Order,
        attributes: List<Word<'a>>,
    },
    /// Change Interaction Order Type.
    ChangeInteractionOrder {
        class: Word<'a>,
        order: Order,
    },
    /// Register Federation Synchronization Point, of a label of any length.
    RegisterPoint {
        label: Word<'a>,
    },
    /// Synchronization Point Achieved.
    AchievePoint {
        label: Word<'a>,
    },
    /// Get Object Instance Handle.
    ObjectHandle {
        name: Word<'a>,
    },
    /// Get Object Instance Name.
    ObjectName {
        object: u64,
    },
    /// Enable Time Regulation, at a time and with a lookahead, both in ticks.
    EnableTimeRegulation {
        time: u64,
        lookahead: u64,
    },
    /// Disable Time Regulation.
    DisableTimeRegulation,
    /// Enable Time Constrained.
    EnableTimeConstrained,
    /// Disable Time Constrained.
    DisableTimeConstrained,
    /// Time Advance Request, Time Advance Request Available, Next Event Request, Next Event Request Available or Flush
    /// Queue Request, to a time in ticks.
    RequestAdvance {
        kind: AdvanceKind,
        time: u64,
    },
    /// Modify Lookahead, to so many ticks.
    ModifyLookahead {
        lookahead: u64,
    },
    /// Enable Asynchronous Delivery.
    EnableAsynchronousDelivery,
    /// Disable Asynchronous Delivery.
    DisableAsynchronousDelivery,
    /// Retract, of the message of that serial from the federate of that number. Both may be larger than any there is.
    Retract {
        sender: u64,
        serial: u64,
    },
    /// Query LBTS.
    QueryLbts,
    /// Query Federate Time.
    QueryFederateTime,
    /// Query Minimum Next Event Time.
    QueryMinNextEventTime,
    /// Query Lookahead.
    QueryLookahead,
}

/// What a line asks for.
#[derive(Debug, Drop)]
pub enum Command<'a> {
    /// Create Federation Execution.
    Create,
    /// Destroy Federation Execution.
    Destroy,
    /// Join Federation Execution, under a name.
    Join { name: Word<'a> },
    /// The first message on the wire from one federate to another arrives.
    Carry { from: Word<'a>, to: Word<'a> },
    /// The federate of that name announces its promise to the others.
    Announce { name: Word<'a> },
    /// The federate of that name does something.
    Federate { name: Word<'a>, call: Call<'a> },
}

/// A line of a script, with its number, counted from 1 over all lines.
#[derive(Debug, Drop)]
pub struct Line<'a> {
    pub number: usize,
    pub command: Command<'a>,
}

/// The lines of a script that ask for something, in their order.
pub type Script<'a> = List<Line<'a>>;

/// What is wrong with a script.
#[derive(Clone, Copy, Debug, PartialEq, Eq, Error)]
pub enum ScriptFaultKind {
    /// A byte that is no visible ASCII, space or tab.
    #[error("BadByte")]
    BadByte,
    /// No command begins with this word.
    #[error("UnknownWord")]
    UnknownWord,
    /// The command needs another word.
    #[error("MissingWord")]
    MissingWord,
    /// The command ends before this word.
    #[error("ExtraWord")]
    ExtraWord,
    /// A word that is no number, where one must stand.
    #[error("BadNumber")]
    BadNumber,
    /// A word of another form than must stand there.
    #[error("BadWord")]
    BadWord,
    /// The script or the line is too long.
    #[error("TooLarge")]
    TooLarge,
    /// A growth was refused.
    #[error("OutOfMemory")]
    OutOfMemory,
}

impl ScriptFaultKind {
    /// The name, as it is printed.
    pub fn name(self) -> &'static str
        ensures { result.now ≡ kind_name self }
    {
        match self {
            ScriptFaultKind::BadByte => "BadByte",
            ScriptFaultKind::UnknownWord => "UnknownWord",
            ScriptFaultKind::MissingWord => "MissingWord",
            ScriptFaultKind::ExtraWord => "ExtraWord",
            ScriptFaultKind::BadNumber => "BadNumber",
            ScriptFaultKind::BadWord => "BadWord",
            ScriptFaultKind::TooLarge => "TooLarge",
            ScriptFaultKind::OutOfMemory => "OutOfMemory",
        }
    }
}

/// The first fault of a script, and the line where it stands.
#[derive(Clone, Copy, Debug, PartialEq, Eq)]
pub struct ScriptFault {
    pub line: usize,
    pub kind: ScriptFaultKind,
}
