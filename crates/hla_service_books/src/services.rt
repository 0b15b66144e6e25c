//! The services, as the books tell them apart.

/// One of the five requests to advance.
#[derive(Clone, Copy)]
pub struct Kind {
    /// Whether it leaves nothing behind at the time of its grant.
    pub is_strict: bool,
    /// Whether it is a next-event request.
    pub is_next: bool,
    pub is_flush: bool,
}

/// A service that a federate's line calls.
#[derive(Clone, Copy)]
pub enum BookedService {
    Tick,
    Send,
    Update,
    Delete,
    Retract,
    Register,
    Resign,
    PublishObject,
    UnpublishObject,
    SubscribeObject,
    UnsubscribeObject,
    PublishInteraction,
    UnpublishInteraction,
    SubscribeInteraction,
    UnsubscribeInteraction,
    ChangeAttributeOrder,
    ChangeInteractionOrder,
    NameObject,
    RegisterPoint,
    AchievePoint,
    Regulate,
    Unregulate,
    Constrain,
    Unconstrain,
    ModifyLookahead,
    TurnAsyncOn,
    TurnAsyncOff,
    Request(Kind),
    TellBound,
    TellTime,
    TellLookahead,
    TellNextTime,
    /// What the books know nothing of.
    Other,
}

const TAR: Kind = Kind {
    is_strict: true,
    is_next: false,
    is_flush: false,
};

const TARA: Kind = Kind {
    is_strict: false,
    is_next: false,
    is_flush: false,
};

const NER: Kind = Kind {
    is_strict: true,
    is_next: true,
    is_flush: false,
};

const NERA: Kind = Kind {
    is_strict: false,
    is_next: true,
    is_flush: false,
};

const FQR: Kind = Kind {
    is_strict: false,
    is_next: false,
    is_flush: true,
};

/// The words for them.
static SERVICES: [(&str, BookedService); 37] = [
    ("tick", BookedService::Tick),
    ("send", BookedService::Send),
    ("update", BookedService::Update),
    ("delete", BookedService::Delete),
    ("retract", BookedService::Retract),
    ("register", BookedService::Register),
    ("resign", BookedService::Resign),
    ("publishObject", BookedService::PublishObject),
    ("unpublishObject", BookedService::UnpublishObject),
    ("subscribeObject", BookedService::SubscribeObject),
    ("unsubscribeObject", BookedService::UnsubscribeObject),
    ("publishInteraction", BookedService::PublishInteraction),
    ("unpublishInteraction", BookedService::UnpublishInteraction),
    ("subscribeInteraction", BookedService::SubscribeInteraction),
    (
        "unsubscribeInteraction",
        BookedService::UnsubscribeInteraction,
    ),
    ("attributeOrder", BookedService::ChangeAttributeOrder),
    ("interactionOrder", BookedService::ChangeInteractionOrder),
    ("objectHandle", BookedService::NameObject),
    ("objectName", BookedService::NameObject),
    ("syncRegister", BookedService::RegisterPoint),
    ("syncAchieve", BookedService::AchievePoint),
    ("regulate", BookedService::Regulate),
    ("unregulate", BookedService::Unregulate),
    ("constrain", BookedService::Constrain),
    ("unconstrain", BookedService::Unconstrain),
    ("modifyLookahead", BookedService::ModifyLookahead),
    ("asyncOn", BookedService::TurnAsyncOn),
    ("asyncOff", BookedService::TurnAsyncOff),
    ("tar", BookedService::Request(TAR)),
    ("tara", BookedService::Request(TARA)),
    ("ner", BookedService::Request(NER)),
    ("nera", BookedService::Request(NERA)),
    ("fqr", BookedService::Request(FQR)),
    ("lbts", BookedService::TellBound),
    ("time", BookedService::TellTime),
    ("lookahead", BookedService::TellLookahead),
    ("minNext", BookedService::TellNextTime),
];

impl Kind {
    /// The first time that a grant at a time leaves open.
    pub fn reach(self, time: u64) -> u64 {
        if self.is_strict {
            time.saturating_add(1)
        } else {
            time
        }
    }
}

impl BookedService {
    /// The one that a word calls.
    pub fn of(word: &str) -> BookedService {
        for (known, service) in &SERVICES {
            if *known == word {
                return *service;
            }
        }
        BookedService::Other
    }

    /// Whether it names a class, and perhaps attributes or parameters, which the FED file may not have.
    pub fn names_a_class(self) -> bool {
        matches!(
            self,
            BookedService::PublishObject
                | BookedService::UnpublishObject
                | BookedService::SubscribeObject
                | BookedService::UnsubscribeObject
                | BookedService::PublishInteraction
                | BookedService::UnpublishInteraction
                | BookedService::SubscribeInteraction
                | BookedService::UnsubscribeInteraction
                | BookedService::Register
                | BookedService::Update
                | BookedService::Send
                | BookedService::ChangeAttributeOrder
                | BookedService::ChangeInteractionOrder
        )
    }
}
