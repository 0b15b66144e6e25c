//! The faults of refusals, by the numbers that a transcript prints.

pub const EXECUTION_EXISTS: u32 = 1;

pub const FEDERATES_JOINED: u32 = 3;

pub const NAME_IS_JOINED: u32 = 5;

pub const NOT_A_MEMBER: u32 = 6;

pub const OWNS_OBJECTS: u32 = 7;

pub const ATTRIBUTE_NOT_DEFINED: u32 = 9;

pub const OBJECT_CLASS_NOT_PUBLISHED: u32 = 10;

pub const ATTRIBUTE_NOT_PUBLISHED: u32 = 11;

pub const OBJECT_CLASS_NOT_SUBSCRIBED: u32 = 12;

pub const INTERACTION_NOT_PUBLISHED: u32 = 15;

pub const INTERACTION_NOT_SUBSCRIBED: u32 = 16;

pub const OBJECT_NAME_IS_USED: u32 = 17;

pub const OBJECT_NOT_KNOWN: u32 = 18;

pub const ATTRIBUTE_NOT_OWNED: u32 = 19;

pub const NOT_DELETABLE: u32 = 20;

pub const BAD_TIME: u32 = 21;

pub const BAD_LOOKAHEAD: u32 = 22;

pub const TIME_PASSED: u32 = 23;

pub const ADVANCING: u32 = 24;

pub const REGULATING: u32 = 25;

pub const REGULATION_PENDING: u32 = 26;

pub const NOT_REGULATING: u32 = 27;

pub const CONSTRAINED: u32 = 28;

pub const CONSTRAINT_PENDING: u32 = 29;

pub const NOT_CONSTRAINED: u32 = 30;

pub const ASYNCHRONOUS: u32 = 31;

pub const NOT_ASYNCHRONOUS: u32 = 32;

pub const BAD_RETRACTION: u32 = 33;

pub const NAME_NOT_FOUND: u32 = 34;

pub const LIMIT_REACHED: u32 = 36;

pub const BAD_RESIGN_ACTION: u32 = 39;

pub const NOT_ANNOUNCED: u32 = 40;
