//! The words that scripts know.

ghost use Rattle.std.specs.Prelude.{◌≡◌};
ghost use Rattle.std.specs.Str.{bytes_eq};
ghost use Rattle.hla_commands.specs.Vocabulary.{opening_of, declaration_verb_of, time_service_named, query_of, time_verb_of, object_verb_of, point_verb_of, verb_of, action_of, order_named};

use crate::lines::Declaration;
use hla_base::AdvanceKind;
use hla_catalogue::Order;
use hla_machine::ResignAction;

/// Whether a word is a known one. Most differ in length, which is looked at first.
#[inline(always)]
fn is(word: &[u8], known: &[u8]) -> bool
    ensures { result ≡ bytes_eq word.now known.now }
{
    word.len() == known.len() && word == known
}

/// What the first word of a line opens.
#[derive(Clone, Copy, Debug, PartialEq, Eq)]
pub enum Opening {
    Create,
    Destroy,
    Join,
    Carry,
    Announce,
    /// A line that begins with a federate's name.
    Federate,
}

impl Opening {
    /// What a word opens.
    #[tactic(auto, unfolding(crate::specs::Vocabulary::opening_of))]
    pub fn of(word: &[u8]) -> Opening
        ensures { result ≡ opening_of word.now }
    {
        if is(word, b"create") {
            Opening::Create
        } else if is(word, b"destroy") {
            Opening::Destroy
        } else if is(word, b"join") {
            Opening::Join
        } else if is(word, b"carry") {
            Opening::Carry
        } else if is(word, b"announce") {
            Opening::Announce
        } else {
            Opening::Federate
        }
    }
}

/// What a word of time management says.
#[derive(Clone, Copy, Debug, PartialEq, Eq)]
pub enum TimeVerb {
    EnableTimeRegulation,
    DisableTimeRegulation,
    EnableTimeConstrained,
    DisableTimeConstrained,
    RequestAdvance(AdvanceKind),
    ModifyLookahead,
    EnableAsynchronousDelivery,
    DisableAsynchronousDelivery,
    Retract,
    QueryLbts,
    QueryFederateTime,
    QueryMinNextEventTime,
    QueryLookahead,
}

impl TimeVerb {
    /// Which service a word asks for, if it is one of their words and no query.
    #[tactic(auto, unfolding(crate::specs::Vocabulary::time_service_named))]
    fn service(word: &[u8]) -> Option<TimeVerb>
        ensures { result ≡ time_service_named word.now }
    {
        if is(word, b"regulate") {
            Some(TimeVerb::EnableTimeRegulation)
        } else if is(word, b"unregulate") {
            Some(TimeVerb::DisableTimeRegulation)
        } else if is(word, b"constrain") {
            Some(TimeVerb::EnableTimeConstrained)
        } else if is(word, b"unconstrain") {
            Some(TimeVerb::DisableTimeConstrained)
        } else if is(word, b"tar") {
            Some(TimeVerb::RequestAdvance(AdvanceKind::TimeAdvance))
        } else if is(word, b"tara") {
            Some(TimeVerb::RequestAdvance(AdvanceKind::TimeAdvanceAvailable))
        } else if is(word, b"ner") {
            Some(TimeVerb::RequestAdvance(AdvanceKind::NextEvent))
        } else if is(word, b"nera") {
            Some(TimeVerb::RequestAdvance(AdvanceKind::NextEventAvailable))
        } else if is(word, b"fqr") {
            Some(TimeVerb::RequestAdvance(AdvanceKind::FlushQueue))
        } else if is(word, b"modifyLookahead") {
            Some(TimeVerb::ModifyLookahead)
        } else if is(word, b"asyncOn") {
            Some(TimeVerb::EnableAsynchronousDelivery)
        } else if is(word, b"asyncOff") {
            Some(TimeVerb::DisableAsynchronousDelivery)
        } else if is(word, b"retract") {
            Some(TimeVerb::Retract)
        } else {
            None
        }
    }

    /// Which query a word makes, if it is one of their words.
    #[tactic(auto, unfolding(crate::specs::Vocabulary::query_of))]
    fn query(word: &[u8]) -> Option<TimeVerb>
        ensures { result ≡ query_of word.now }
    {
        if is(word, b"lbts") {
            Some(TimeVerb::QueryLbts)
        } else if is(word, b"time") {
            Some(TimeVerb::QueryFederateTime)
        } else if is(word, b"minNext") {
            Some(TimeVerb::QueryMinNextEventTime)
        } else if is(word, b"lookahead") {
            Some(TimeVerb::QueryLookahead)
        } else {
            None
        }
    }

    /// What a word says, if it is one of time management.
    fn of(word: &[u8]) -> Option<TimeVerb>
        ensures { result ≡ time_verb_of word.now }
    {
        TimeVerb::service(word).or_else(|| TimeVerb::query(word))
    }
}

/// What a word behind a federate's name says.
#[derive(Clone, Copy, Debug, PartialEq, Eq)]
pub enum Verb {
    Tick,
    Resign,
    DeclareObject(Declaration),
    WithdrawObject(Declaration),
    DeclareInteraction(Declaration),
    WithdrawInteraction(Declaration),
    Register,
    Update,
    Send,
    Delete,
    AttributeOrder,
    InteractionOrder,
    RegisterPoint,
    AchievePoint,
    ObjectHandle,
    ObjectName,
    Time(TimeVerb),
}

impl Verb {
    /// Which declaration a word makes or withdraws, if it is one of their words.
    #[tactic(auto, unfolding(crate::specs::Vocabulary::declaration_verb_of))]
    fn declaration_verb(word: &[u8]) -> Option<Verb>
        ensures { result ≡ declaration_verb_of word.now }
    {
        if is(word, b"publishObject") {
            Some(Verb::DeclareObject(Declaration::Publication))
        } else if is(word, b"unpublishObject") {
            Some(Verb::WithdrawObject(Declaration::Publication))
        } else if is(word, b"subscribeObject") {
            Some(Verb::DeclareObject(Declaration::Subscription))
        } else if is(word, b"unsubscribeObject") {
            Some(Verb::WithdrawObject(Declaration::Subscription))
        } else if is(word, b"publishInteraction") {
            Some(Verb::DeclareInteraction(Declaration::Publication))
        } else if is(word, b"unpublishInteraction") {
            Some(Verb::WithdrawInteraction(Declaration::Publication))
        } else if is(word, b"subscribeInteraction") {
            Some(Verb::DeclareInteraction(Declaration::Subscription))
        } else if is(word, b"unsubscribeInteraction") {
            Some(Verb::WithdrawInteraction(Declaration::Subscription))
        } else {
            None
        }
    }

    /// What a word says of objects and messages, if it is one of their words.
    #[tactic(auto, unfolding(crate::specs::Vocabulary::object_verb_of))]
    fn object_verb(word: &[u8]) -> Option<Verb>
        ensures { result ≡ object_verb_of word.now }
    {
        if is(word, b"register") {
            Some(Verb::Register)
        } else if is(word, b"update") {
            Some(Verb::Update)
        } else if is(word, b"send") {
            Some(Verb::Send)
        } else if is(word, b"delete") {
            Some(Verb::Delete)
        } else if is(word, b"attributeOrder") {
            Some(Verb::AttributeOrder)
        } else if is(word, b"interactionOrder") {
            Some(Verb::InteractionOrder)
        } else if is(word, b"objectHandle") {
            Some(Verb::ObjectHandle)
        } else if is(word, b"objectName") {
            Some(Verb::ObjectName)
        } else {
            None
        }
    }

    /// What a word says of synchronization points, if it is one of their words.
    #[tactic(auto, unfolding(crate::specs::Vocabulary::point_verb_of))]
    fn point_verb(word: &[u8]) -> Option<Verb>
        ensures { result ≡ point_verb_of word.now }
    {
        if is(word, b"syncRegister") {
            Some(Verb::RegisterPoint)
        } else if is(word, b"syncAchieve") {
            Some(Verb::AchievePoint)
        } else {
            None
        }
    }

    /// What a word says, if it is known.
    #[tactic(auto, unfolding(crate::specs::Vocabulary::verb_of))]
    pub fn of(word: &[u8]) -> Option<Verb>
        ensures { result ≡ verb_of word.now }
    {
        if is(word, b"tick") {
            Some(Verb::Tick)
        } else if is(word, b"resign") {
            Some(Verb::Resign)
        } else {
            Verb::object_verb(word)
                .or_else(|| Verb::declaration_verb(word))
                .or_else(|| Verb::point_verb(word))
                .or_else(|| TimeVerb::of(word).map(Verb::Time))
        }
    }
}

/// The action of a resignation that a word names, if it names one.
#[tactic(auto, unfolding(crate::specs::Vocabulary::action_of))]
pub fn action_of(word: &[u8]) -> Option<ResignAction>
    ensures { result ≡ action_of word.now }
{
    if is(word, b"RELEASE_ATTRIBUTES") {
        Some(ResignAction::ReleaseAttributes)
    } else if is(word, b"DELETE_OBJECTS") {
        Some(ResignAction::DeleteObjects)
    } else if is(word, b"DELETE_OBJECTS_AND_RELEASE_ATTRIBUTES") {
        Some(ResignAction::DeleteObjectsAndReleaseAttributes)
    } else if is(word, b"NO_ACTION") {
        Some(ResignAction::NoAction)
    } else {
        None
    }
}

/// The order that a word names, if it names one.
#[tactic(auto, unfolding(crate::specs::Vocabulary::order_named))]
pub fn order_of(word: &[u8]) -> Option<Order>
    ensures { result ≡ order_named word.now }
{
    if is(word, b"receive") {
        Some(Order::Receive)
    } else if is(word, b"timestamp") {
        Some(Order::Timestamp)
    } else {
        None
    }
}
