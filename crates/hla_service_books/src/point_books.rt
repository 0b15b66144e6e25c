//! What the books know of synchronization points.

use crate::columns::Column;
use crate::faults;
use crate::service_books::Books;
use crate::wires::{Letter, Tiding};

/// The most points that are open at once, and the most bytes of a label.
const MOST: usize = 64;

/// A point. Its members are all who are joined.
#[derive(Clone, Copy)]
pub struct BookedPoint {
    /// The number of its label's text.
    label: usize,
    is_open: bool,
}

/// All points, in order of opening.
pub type Points = Column<BookedPoint>;

impl Tiding {
    /// The word for it.
    fn word(self) -> &'static str {
        match self {
            Tiding::Registered => "syncRegistered",
            Tiding::Refused => "syncRefused",
            Tiding::Announced => "syncAnnounced",
            Tiding::Synchronized => "synchronized",
        }
    }
}

impl Column<BookedPoint> {
    /// The place of the open point of a label.
    fn place(&self, label: usize) -> Option<usize> {
        for (place, point) in self.entries.iter().enumerate() {
            if point.is_open && point.label == label {
                return Some(place);
            }
        }
        None
    }

    /// How many are open.
    fn count_open(&self) -> usize {
        let mut count = 0usize;
        for point in self.entries.as_slice() {
            if point.is_open {
                count = count.saturating_add(1);
            }
        }
        count
    }

    /// The label of the point at a place, if it is open.
    fn label_at(&self, place: usize) -> Option<usize> {
        match self.entries.get(place) {
            Some(point) if point.is_open => Some(point.label),
            _ => None,
        }
    }

    /// The point at a place closes.
    fn close(&mut self, place: usize) {
        if let Some(point) = self.entries.get_mut(place) {
            point.is_open = false;
        }
    }
}

impl Books {
    /// The place of the open point of a label, by its text.
    fn point_of(&self, label: &str) -> Option<usize> {
        self.points.place(self.texts.number_of(label))
    }

    /// Whether a point of a label may open, or is open.
    pub fn may_open(&self, label: &str) -> bool {
        let is_long = label.is_empty() || label.len() > MOST;
        !is_long && (self.points.count_open() < MOST || matches!(self.point_of(label), Some(_)))
    }

    /// Whether a federate was told of the open point of a label, and has not achieved it.
    fn may_achieve(&self, federate: u32, label: &str) -> bool {
        match self.point_of(label) {
            Some(point) => {
                self.told.hold(federate, point, false)
                    && !self.achieved.hold(federate, point, false)
            }
            None => false,
        }
    }

    /// Whether an achievement may be refused so.
    pub fn may_refuse_achievement(&mut self, federate: u32, label: &str, fault: u32) -> bool {
        self.tally.unannounced = self.tally.unannounced.saturating_add(1);
        fault == faults::NOT_ANNOUNCED && !self.may_achieve(federate, label)
    }

    /// A federate is to be told something at a tick, behind what there is.
    fn tell(&mut self, federate: u32, tiding: Tiding, label: usize) {
        self.controls
            .put(0, federate, Letter::Point { tiding, label });
    }

    /// All who are joined are to be told something.
    fn tell_all(&mut self, tiding: Tiding, label: usize) {
        for member in self.members.entries.as_slice() {
            if member.is_joined {
                self.controls
                    .put(0, member.number, Letter::Point { tiding, label });
            }
        }
    }

    /// A point opens, and all are told so, its registrar first that it has registered it; or it alone, that one of the label was
    /// open.
    pub fn register_point(&mut self, federate: u32, text: &str) -> bool {
        let is_allowed = self.may_open(text);
        let label = self.texts.keep(self.alloc, text);
        match self.points.place(label) {
            Some(_) => self.tell(federate, Tiding::Refused, label),
            None => {
                self.points.add(BookedPoint {
                    label,
                    is_open: true,
                });
                self.tell(federate, Tiding::Registered, label);
                self.tell_all(Tiding::Announced, label);
            }
        }
        is_allowed
    }

    /// A federate has achieved a point.
    pub fn achieve_point(&mut self, federate: u32, text: &str) -> bool {
        let is_allowed = self.may_achieve(federate, text);
        if let Some(point) = self.point_of(text) {
            self.achieved.note(federate, point, true);
        }
        self.close_points();
        is_allowed
    }

    /// Each point that all who are joined have achieved closes, and they are told so.
    pub fn close_points(&mut self) {
        for place in 0..self.points.entries.len() {
            match self.points.label_at(place) {
                Some(label) if self.is_achieved(place) => {
                    self.points.close(place);
                    self.tell_all(Tiding::Synchronized, label);
                }
                _ => {}
            }
        }
    }

    /// Whether all who are joined have achieved a point.
    fn is_achieved(&self, point: usize) -> bool {
        let mut is_achieved = true;
        for member in self.members.entries.as_slice() {
            is_achieved = is_achieved
                && (!member.is_joined || self.achieved.hold(member.number, point, false));
        }
        is_achieved
    }

    /// One who has joined is told of each open point.
    pub fn announce_points(&mut self, federate: u32) {
        for place in 0..self.points.entries.len() {
            if let Some(label) = self.points.label_at(place) {
                self.tell(federate, Tiding::Announced, label);
            }
        }
    }

    /// A federate is told something of a point, and the transcript says so.
    pub fn note_tiding(
        &mut self,
        federate: u32,
        tiding: Tiding,
        label: usize,
        callback: &str,
    ) -> bool {
        match tiding {
            Tiding::Announced => self.note_announcement(federate, label),
            Tiding::Synchronized => {
                self.tally.synchronized = self.tally.synchronized.saturating_add(1);
            }
            Tiding::Registered | Tiding::Refused => {}
        }
        let (word, rest) = callback.split_once(' ').unwrap_or(("", callback));
        word == tiding.word() && rest == self.texts.text(label)
    }

    /// A federate was told of the open point of a label.
    fn note_announcement(&mut self, federate: u32, label: usize) {
        if let Some(point) = self.points.place(label) {
            self.told.note(federate, point, true);
        }
    }
}
