//! Books of all services that are kept by texts alone: who has joined, what was sent to whom, what lies on which wire, and how far
//! each federate's time has come. They know no crate of the federation, and say of each answer of a transcript whether the rules
//! allow it.

use crate::attributes::Attributes;
use crate::columns::Column;
use crate::copies::{BookedMessage, Copies, Messages, Said};
use crate::facts::Facts;
use crate::faults;
use crate::members::{BookedFederate, BookedFederates};
use crate::objects::{Objects, is_car};
use crate::point_books::Points;
use crate::rows::Rows;
use crate::services::BookedService;
use crate::texts::{EventName, FOREVER, KnownTexts, cut, number, path_of, stamp_of};
use crate::wires::{Letter, Wires};
use std::alloc::{AllocError, Global};
use std::mem;

/// How often the laws were tried.
#[derive(Clone, Copy)]
pub struct Tally {
    /// Ticks that told something.
    pub told: u32,
    /// Messages given in time-stamp order outside flushes, and in them.
    pub picked: u32,
    pub flushed: u32,
    /// Grants to constrained federates, flushes left out.
    pub granted: u32,
    /// Messages that were retracted before they were given, and those that were asked back.
    pub vanished: u32,
    pub asked_back: u32,
    /// Null messages of an older epoch.
    pub ignored: u32,
    /// Sends that were refused for their stamp.
    pub refused: u32,
    /// Changes of orders.
    pub changed: u32,
    /// How often a federate was told that the federation is synchronized, and how often an achievement was refused.
    pub synchronized: u32,
    pub unannounced: u32,
}

impl Tally {
    /// Nothing was counted yet.
    pub fn new() -> Tally {
        Tally {
            told: 0,
            picked: 0,
            flushed: 0,
            granted: 0,
            vanished: 0,
            asked_back: 0,
            ignored: 0,
            refused: 0,
            changed: 0,
            synchronized: 0,
            unannounced: 0,
        }
    }

    /// Adds the counts of another script.
    pub fn add(&mut self, other: Tally) {
        self.told = self.told.saturating_add(other.told);
        self.picked = self.picked.saturating_add(other.picked);
        self.flushed = self.flushed.saturating_add(other.flushed);
        self.granted = self.granted.saturating_add(other.granted);
        self.vanished = self.vanished.saturating_add(other.vanished);
        self.asked_back = self.asked_back.saturating_add(other.asked_back);
        self.ignored = self.ignored.saturating_add(other.ignored);
        self.refused = self.refused.saturating_add(other.refused);
        self.changed = self.changed.saturating_add(other.changed);
        self.synchronized = self.synchronized.saturating_add(other.synchronized);
        self.unannounced = self.unannounced.saturating_add(other.unannounced);
    }
}

/// What was noted so far.
#[derive(Drop)]
pub struct Books {
    pub alloc: Global,
    pub texts: KnownTexts,
    pub members: BookedFederates,
    pub rows: Rows,
    /// Who subscribes which interaction class, and whose interactions of which class go in time-stamp order, where that was changed;
    /// by the numbers of the classes' paths.
    hearings: Facts,
    interaction_orders: Facts,
    pub objects: Objects,
    /// Who knows which object.
    pub known: Facts,
    pub points: Points,
    /// Who was told of which point, and has achieved it, by the point's place.
    pub told: Facts,
    pub achieved: Facts,
    pub messages: Messages,
    pub copies: Copies,
    /// Between all federates.
    pub wires: Wires,
    /// What federates are to be told at any tick, and what waits for them in receive order, each from 0.
    pub controls: Wires,
    pub received: Wires,
    pub tally: Tally,
}

/// Whether a line may be refused with a fault that is no joined federate's: it creates, destroys, joins or carries, or its federate
/// is not joined.
fn may_refuse_outside(word: &str, fault: u32) -> bool {
    match word {
        "create" => fault == faults::EXECUTION_EXISTS,
        "destroy" => fault == faults::FEDERATES_JOINED,
        "join" => matches!(fault, faults::NAME_IS_JOINED | faults::LIMIT_REACHED),
        _ => fault == faults::NOT_A_MEMBER,
    }
}

/// Whether a service may be refused with a fault, of those that the books do not judge further.
fn may_refuse_unjudged(service: BookedService, words: &str, fault: u32) -> bool {
    match service {
        BookedService::UnpublishObject => fault == faults::OBJECT_CLASS_NOT_PUBLISHED,
        BookedService::UnsubscribeObject => fault == faults::OBJECT_CLASS_NOT_SUBSCRIBED,
        BookedService::UnpublishInteraction | BookedService::ChangeInteractionOrder => {
            fault == faults::INTERACTION_NOT_PUBLISHED
        }
        BookedService::UnsubscribeInteraction => fault == faults::INTERACTION_NOT_SUBSCRIBED,
        BookedService::Register => matches!(
            fault,
            faults::OBJECT_CLASS_NOT_PUBLISHED | faults::OBJECT_NAME_IS_USED
        ),
        BookedService::NameObject => fault == faults::OBJECT_NOT_KNOWN,
        BookedService::Resign => {
            if words.ends_with("RELEASE_ATTRIBUTES") {
                fault == faults::BAD_RESIGN_ACTION
            } else {
                fault == faults::OWNS_OBJECTS
            }
        }
        _ => false,
    }
}

/// Whether a message may be refused with a fault, other than for its stamp.
fn may_refuse_message(service: BookedService, fault: u32) -> bool {
    match service {
        BookedService::Send => fault == faults::INTERACTION_NOT_PUBLISHED,
        BookedService::Delete => {
            matches!(fault, faults::OBJECT_NOT_KNOWN | faults::NOT_DELETABLE)
        }
        _ => matches!(
            fault,
            faults::OBJECT_NOT_KNOWN
                | faults::ATTRIBUTE_NOT_DEFINED
                | faults::ATTRIBUTE_NOT_PUBLISHED
                | faults::ATTRIBUTE_NOT_OWNED
        ),
    }
}

impl Books {
    /// Books in which nothing stands yet but how often the laws were tried.
    fn new(alloc: Global, tally: Tally) -> Books {
        Books {
            alloc,
            texts: Column::new(alloc),
            members: Column::new(alloc),
            rows: Column::new(alloc),
            hearings: Column::new(alloc),
            interaction_orders: Column::new(alloc),
            objects: Column::new(alloc),
            known: Column::new(alloc),
            points: Column::new(alloc),
            told: Column::new(alloc),
            achieved: Column::new(alloc),
            messages: Column::new(alloc),
            copies: Column::new(alloc),
            wires: Column::new(alloc),
            controls: Column::new(alloc),
            received: Column::new(alloc),
            tally,
        }
    }

    /// A federation is created or destroyed: all that stays is how often the laws were tried.
    fn start_over(&mut self) {
        let mut books = Books::new(self.alloc, self.tally);
        mem::swap(self, &mut books);
        drop(books);
    }

    /// Whether there was no room for something.
    fn lacked_room(&self) -> bool {
        self.texts.lacked_room
            | self.members.lacked_room
            | self.rows.lacked_room
            | self.hearings.lacked_room
            | self.interaction_orders.lacked_room
            | self.objects.lacked_room
            | self.known.lacked_room
            | self.points.lacked_room
            | self.told.lacked_room
            | self.achieved.lacked_room
            | self.messages.lacked_room
            | self.copies.lacked_room
            | self.wires.lacked_room
            | self.controls.lacked_room
            | self.received.lacked_room
    }

    /// The least stamp that waits for a federate in time-stamp order.
    pub fn waiting(&self, federate: u32) -> u64 {
        self.copies.first_below(federate, FOREVER).stamp
    }

    /// The number of the federate that joined last under a name, or 0.
    pub fn number_of(&self, name: &str) -> u32 {
        self.members.number_of(self.texts.number_of(name))
    }

    /// Notes a line of the script and its answer, and says whether the answer is one that the books allow.
    fn note(&mut self, line: &str, answer: &str) -> bool {
        let (ok, said) = cut(answer);
        let (name, rest) = cut(line);
        if ok == "ok" {
            self.note_success(name, rest, said)
        } else {
            ok == "error" && self.may_refuse(name, rest, number(cut(said).0))
        }
    }

    /// Notes what a line has done.
    fn note_success(&mut self, name: &str, rest: &str, said: &str) -> bool {
        match name {
            "create" | "destroy" => {
                self.start_over();
                said.is_empty()
            }
            "join" => self.join(rest, number(said)),
            "carry" => self.carry(rest, said),
            "announce" => {
                let federate = self.number_of(rest);
                self.is_joined(federate) && self.announce(federate, said)
            }
            _ => {
                let federate = self.number_of(name);
                self.is_joined(federate) && self.call(federate, rest, said)
            }
        }
    }

    /// Whether a federate has joined, and not resigned since.
    pub fn is_joined(&self, federate: u32) -> bool {
        self.members.member(federate).is_joined
    }

    /// Notes the lines of a script and their answers in a transcript, and says whether that is by the books; not where there was no
    /// room for something.
    fn read(&mut self, script: &str, transcript: &str) -> bool {
        let mut answers = transcript.lines();
        let mut number = 0u64;
        for line in script.lines() {
            number = number.saturating_add(1);
            let is_allowed = match said_in(answers.next(), number) {
                Some(said) => self.note(line, said),
                None => false,
            };
            if !is_allowed || self.lacked_room() {
                return false;
            }
        }
        answers.next().is_none()
    }

    /// Whether a line may be refused with a fault: by what the books know of the federate and its clock, or where they do not tell,
    /// with one of the faults that its service has.
    fn may_refuse(&mut self, name: &str, rest: &str, fault: u32) -> bool {
        let (word, words) = cut(rest);
        let service = BookedService::of(word);
        let federate = self.number_of(name);
        if fault == faults::NAME_NOT_FOUND {
            service.names_a_class()
        } else if self.is_joined(federate) {
            self.may_refuse_member(federate, service, words, fault)
        } else {
            may_refuse_outside(name, fault)
        }
    }

    /// The same, of a line of a federate that is joined, with another fault than that a name is not found.
    fn may_refuse_member(
        &mut self,
        federate: u32,
        service: BookedService,
        words: &str,
        fault: u32,
    ) -> bool {
        match service {
            BookedService::Send | BookedService::Update | BookedService::Delete => {
                if fault == faults::BAD_TIME {
                    self.may_refuse_stamp(federate, words)
                } else {
                    may_refuse_message(service, fault)
                }
            }
            BookedService::ChangeAttributeOrder => {
                self.may_refuse_attributes(federate, words, fault)
            }
            BookedService::Retract => {
                fault == faults::BAD_RETRACTION && !self.may_retract(federate, EventName::of(words))
            }
            BookedService::RegisterPoint => {
                fault == faults::LIMIT_REACHED && !self.may_open(cut(words).0)
            }
            BookedService::AchievePoint => {
                self.may_refuse_achievement(federate, cut(words).0, fault)
            }
            _ => {
                let clock = self.members.member(federate).clock;
                may_refuse_unjudged(service, words, fault)
                    || clock.refusal(service, words) == Some(fault)
            }
        }
    }

    /// Whether what a line sends may be refused for its stamp.
    fn may_refuse_stamp(&mut self, federate: u32, words: &str) -> bool {
        self.tally.refused = self.tally.refused.saturating_add(1);
        let clock = self.members.member(federate).clock;
        match stamp_of(words) {
            Some(stamp) => stamp < clock.least_stamp() && clock.is_regulating(),
            None => false,
        }
    }

    /// What a federate's service does.
    fn call(&mut self, federate: u32, rest: &str, answer: &str) -> bool {
        let (word, words) = cut(rest);
        let first = cut(words).0;
        match BookedService::of(word) {
            BookedService::Tick => self.tick(federate, answer),
            BookedService::Send => self.send(federate, words, answer),
            BookedService::Update => self.update(federate, words, answer),
            BookedService::Register => self.register(federate, first, number(cut(answer).0)),
            BookedService::Retract => {
                self.retract(federate, EventName::of(words)) && answer.is_empty()
            }
            BookedService::Resign => self.resign(federate, words) && answer.is_empty(),
            service => self.call_further(federate, service, words, answer),
        }
    }

    /// What the other services do, most of which answer nothing.
    fn call_further(
        &mut self,
        federate: u32,
        service: BookedService,
        words: &str,
        answer: &str,
    ) -> bool {
        let first = cut(words).0;
        let is_allowed = match service {
            BookedService::SubscribeObject => {
                self.subscribe_object(federate, words);
                true
            }
            BookedService::UnsubscribeObject => {
                self.members.subscribe(federate, is_car(first), None);
                true
            }
            BookedService::SubscribeInteraction => {
                self.subscribe_interaction(federate, first, true);
                true
            }
            BookedService::UnsubscribeInteraction => {
                self.subscribe_interaction(federate, first, false);
                true
            }
            BookedService::Delete => {
                let place = self.texts.keep(self.alloc, words);
                self.delete(federate, number(first), place, stamp_of(words))
            }
            BookedService::ChangeAttributeOrder => self.change_attributes(federate, words),
            BookedService::ChangeInteractionOrder => {
                self.change_interactions(federate, words);
                true
            }
            BookedService::RegisterPoint => self.register_point(federate, first),
            BookedService::AchievePoint => self.achieve_point(federate, first),
            _ => return self.manage_time(federate, service, words, answer),
        };
        is_allowed && answer.is_empty()
    }

    /// A federate subscribes an interaction class, or unsubscribes it.
    fn subscribe_interaction(&mut self, federate: u32, class: &str, is_subscribed: bool) {
        let class = self.texts.keep(self.alloc, path_of(class));
        self.hearings.note(federate, class, is_subscribed);
    }

    /// A federate's interactions of a class go in another order.
    fn change_interactions(&mut self, federate: u32, words: &str) {
        let (class, order) = cut(words);
        let class = self.texts.keep(self.alloc, path_of(class));
        self.tally.changed = self.tally.changed.saturating_add(1);
        self.interaction_orders
            .note(federate, class, order == "timestamp");
    }

    /// A federate that joins knows at once what each other one announced last, and is to be told of each open point.
    fn join(&mut self, name: &str, federate: u32) -> bool {
        let name = self.texts.keep(self.alloc, name);
        for member in self.members.entries.as_slice() {
            let clock = member.clock;
            self.rows
                .hear_entry(federate, member.number, clock.epoch, clock.last_announced);
        }
        self.members.add(BookedFederate::new(federate, name));
        self.announce_points(federate);
        federate as usize == self.members.entries.len()
    }

    // ---- what is sent

    /// Whether a federate is sent a copy.
    fn receives(&self, member: BookedFederate, said: Said) -> bool {
        match said {
            Said::Interaction { class } => self.hears(member.number, class),
            Said::Update {
                object,
                part,
                given,
            } => member.is_shown(self.objects.object(object).is_car, part.among(given)),
            Said::Deletion { object } => self.known.hold(member.number, object as usize, false),
        }
    }

    /// Whether a federate receives the interactions of a class: it subscribes that class or one above it.
    fn hears(&self, federate: u32, class: usize) -> bool {
        let path = self.texts.text(class);
        let mut hears = false;
        for hearing in self.hearings.entries.as_slice() {
            let is_above = path.starts_with(self.texts.text(hearing.number));
            hears = hears || is_above && self.hearings.hold(federate, hearing.number, false);
        }
        hears
    }

    /// A message takes the next serial, and goes to each of its receivers; with a stamp it is not below what the sender may send
    /// or has announced, and in the past of none of them.
    pub fn post(&mut self, sender: u32, said: Said, stamp: Option<u64>, words: usize) -> bool {
        let clock = self.members.member(sender).clock;
        let is_allowed = match stamp {
            Some(stamp) => clock.least_stamp() <= stamp && clock.last_announced <= stamp,
            None => true,
        };
        let serial = self.members.take_serial(sender);
        let message = BookedMessage {
            event: EventName { sender, serial },
            stamp,
            said,
            words,
            is_retracted: false,
        };
        self.messages.add(message);
        self.hand_out(message) && is_allowed
    }

    /// A message goes to each of its receivers; whether it is in the past of none of them.
    fn hand_out(&mut self, message: BookedMessage) -> bool {
        let event = message.event;
        let mut is_allowed = true;
        for number in 1..=self.members.count() {
            let member = self.members.member(number);
            if member.is_other(event.sender) && self.receives(member, message.said) {
                self.copies.send(message, member.number);
                self.wires
                    .put(event.sender, member.number, Letter::Message { event });
                is_allowed = is_allowed && !member.is_past(message.stamp);
            }
        }
        is_allowed
    }

    /// The stamp with which a message goes in time-stamp order, if it does.
    pub fn kept_stamp(&self, sender: u32, stamp: Option<u64>, is_stamped: bool) -> Option<u64> {
        if is_stamped && self.members.member(sender).clock.is_regulating() {
            stamp
        } else {
            None
        }
    }

    /// Whether an answer names the message that a federate sends next, where that goes in time-stamp order.
    fn names_next(&self, sender: u32, stamp: Option<u64>, answer: &str) -> bool {
        let serial = self.members.member(sender).next_serial;
        match stamp {
            Some(_) => EventName::of(answer).is(EventName { sender, serial }),
            None => answer.is_empty(),
        }
    }

    /// An interaction, in the order in which its sender's interactions of the class go now: by the FED file only those of `Hit` go
    /// in time-stamp order.
    fn send(&mut self, sender: u32, words: &str, answer: &str) -> bool {
        let path = path_of(cut(words).0);
        let class = self.texts.keep(self.alloc, path);
        let place = self.texts.keep(self.alloc, words);
        let by_file = path == path_of("Hit");
        let is_stamped = self.interaction_orders.hold(sender, class, by_file);
        let stamp = self.kept_stamp(sender, stamp_of(words), is_stamped);
        let is_named = self.names_next(sender, stamp, answer);
        self.post(sender, Said::Interaction { class }, stamp, place) && is_named
    }

    /// An update, cut by the orders of the object's attributes now, the part in receive order first.
    fn update(&mut self, sender: u32, words: &str, answer: &str) -> bool {
        let object = number(cut(words).0);
        let given = Attributes::named_in(words, true);
        let stamped = self.objects.object(object).stamped;
        let place = self.texts.keep(self.alloc, words);
        let is_allowed = self.post_part(sender, object, stamped.others(), given, None, place);
        let stamp = self.kept_stamp(sender, stamp_of(words), stamped.among(given).are_any());
        let is_named = self.names_next(sender, stamp, answer);
        let is_sent = self.post_part(sender, object, stamped, given, stamp, place);
        is_allowed && is_named && is_sent
    }

    /// A part of an update is sent, where values of it are given.
    fn post_part(
        &mut self,
        sender: u32,
        object: u32,
        part: Attributes,
        given: Attributes,
        stamp: Option<u64>,
        words: usize,
    ) -> bool {
        let said = Said::Update {
            object,
            part,
            given,
        };
        !part.among(given).are_any() || self.post(sender, said, stamp, words)
    }
}

/// What the answer with this number says.
fn said_in(answer: Option<&str>, number: u64) -> Option<&str> {
    match answer?.split_once(' ') {
        Some((at, said)) if at.parse::<u64>() == Ok(number) => Some(said),
        _ => None,
    }
}

/// Reads a transcript beside its script, which has no blank lines: a line for each line, with its number. Answers how often the
/// laws were tried, or none where the transcript is not by the books. `AllocError` where a growth was refused.
pub fn read_services(
    alloc: Global,
    script: &str,
    transcript: &str,
) -> Result<Option<Tally>, AllocError> {
    let mut books = Books::new(alloc, Tally::new());
    let is_taken = books.read(script, transcript);
    let lacked_room = books.lacked_room();
    let tally = books.tally;
    drop(books);
    if lacked_room {
        Err(AllocError)
    } else {
        Ok(is_taken.then_some(tally))
    }
}
