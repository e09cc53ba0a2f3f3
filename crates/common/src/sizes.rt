// Document 01's sizes and limits, as specs/Limits.antt has them.

// The bytes of a record.
pub const RECORD_SIZE: usize = 128;

// The bytes of a reply.
pub const REPLY_SIZE: usize = 50;

// The most bytes of a name.
pub const NAME_SIZE: usize = 8;

// The most roles of an event.
pub const EVENT_SIZE: usize = 4;

// The most patterns of a past, beside position 0.
pub const MAX_PATTERNS: usize = 63;

// The most roles held, top included.
pub const MAX_ROLES: usize = 64;

// The most rules held.
pub const MAX_RULES: usize = 32;

// The most responses worked for an event.
pub const MAX_RESPONSES: usize = 64;

// The most bytes of a list that is put to the judge: 256 records.
pub const MAX_LIST: usize = 32768;
