//! Attributes by name.

use crate::texts::name_in;

/// Some of the attributes of the class `Car`.
#[derive(Clone, Copy)]
pub struct Attributes {
    pub has_pos: bool,
    pub has_paint: bool,
    /// Whether `privilegeToDelete` is one of them.
    pub has_privilege: bool,
}

impl Attributes {
    /// Those that go in time-stamp order by the FED file: all but `Paint`.
    pub const STAMPED_AT_FIRST: Attributes = Attributes {
        has_pos: true,
        has_paint: false,
        has_privilege: true,
    };

    /// Those that a text names: by words alone, or by pairs of a name and a value.
    pub fn named_in(text: &str, by_pairs: bool) -> Attributes {
        let mut has_pos = false;
        let mut has_paint = false;
        let mut has_privilege = false;
        for word in text.split_whitespace() {
            if word.contains('=') == by_pairs {
                match name_in(word) {
                    "Pos" => has_pos = true,
                    "Paint" => has_paint = true,
                    "privilegeToDelete" => has_privilege = true,
                    _ => {}
                }
            }
        }
        Attributes {
            has_pos,
            has_paint,
            has_privilege,
        }
    }

    /// The others.
    pub fn others(self) -> Attributes {
        Attributes {
            has_pos: !self.has_pos,
            has_paint: !self.has_paint,
            has_privilege: !self.has_privilege,
        }
    }

    /// Whether an attribute is one of them.
    pub fn have(self, name: &str) -> bool {
        match name {
            "Pos" => self.has_pos,
            "Paint" => self.has_paint,
            "privilegeToDelete" => self.has_privilege,
            _ => false,
        }
    }

    /// Those of them that others are, too.
    pub fn among(self, others: Attributes) -> Attributes {
        Attributes {
            has_pos: self.has_pos && others.has_pos,
            has_paint: self.has_paint && others.has_paint,
            has_privilege: self.has_privilege && others.has_privilege,
        }
    }

    /// Whether there are any.
    pub fn are_any(self) -> bool {
        self.has_pos || self.has_paint || self.has_privilege
    }

    /// With some more, or without those.
    pub fn with(self, some: Attributes, is_in: bool) -> Attributes {
        if is_in {
            self.others().among(some.others()).others()
        } else {
            self.among(some.others())
        }
    }
}
