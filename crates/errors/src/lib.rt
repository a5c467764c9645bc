// A refusal, and what a call answers: a count or a length, or a refusal. specs/Meaning.antt says of each what document 01 calls it.
#![tactic(auto)]

ghost use Rattle.std.specs.Prelude.{◌≡◌, ℕ, ◌<◌};
ghost use Rattle.errors.specs.Refusal.{Outcome, plain, unread, refused};
ghost use Rattle.errors.specs.Answer.{answer_words};
ghost use Rattle.errors.specs.Meaning.{number_of, refusal_of, outcome_of, length_of};

use value::Value;

// The question of document 01 that was answered "no", under the Rust's name where it has one.
#[derive(Clone, Copy, PartialEq, Eq)]
pub enum Reason {
    // of an input: 1 to 6
    InputTooLong,
    Malformed,
    NotText,
    TooMany,
    OutOfRange,
    Unordered,
    // of building: 10 to 18
    UnsupportedSize,
    MissingDynamicRefs,
    MissingParameter,
    UnsupportedArrayElement,
    UnsupportedExpression,
    MissingType,
    OffsetTooLarge,
    LimitExceeded,
    OutputTooSmall,
    // of each call: 19
    TooFewWords,
    // of validation: 20 to 27
    UnknownType,
    MissingIrParameter,
    InvalidTagValue,
    ArithmeticOverflow,
    UnsupportedOperation,
    BufferTooSmall,
    ResultTooLarge,
    TooManyCalls,
}

// The place and the offset are 65,535 and 0 where there is none, the value is 0.
#[derive(Clone, Copy, PartialEq, Eq)]
pub struct Refusal {
    pub reason: Reason,
    pub place: usize,
    pub offset: usize,
    pub value: Value,
}

// A refusal of reading: the reason, and the offset of the block.
#[derive(Clone, Copy, PartialEq, Eq)]
pub struct Unread {
    pub reason: Reason,
    pub offset: usize,
}

// A count, or a refusal. A reading that is accepted has the count 0.
pub type Answer = Result<Value, Refusal>;

// The length of what was made, or a refusal.
pub type Length = Result<usize, Refusal>;

// No type's place.
const NOWHERE: usize = 65535;

// What is told in four words: number (0 if accepted), place, offset, and value or count.
pub trait Words {
    ghost told: { Self → Outcome ℕ };

    fn words(self) -> [u64; 4]
        ensures { result ≡ answer_words (told self) };
}

impl Reason {
    // Its number in document 01.
    pub fn number(self) -> u64
        ensures { result ≡ number_of self }
    {
        match self {
            Reason::InputTooLong => 1,
            Reason::Malformed => 2,
            Reason::NotText => 3,
            Reason::TooMany => 4,
            Reason::OutOfRange => 5,
            Reason::Unordered => 6,
            Reason::UnsupportedSize => 10,
            Reason::MissingDynamicRefs => 11,
            Reason::MissingParameter => 12,
            Reason::UnsupportedArrayElement => 13,
            Reason::UnsupportedExpression => 14,
            Reason::MissingType => 15,
            Reason::OffsetTooLarge => 16,
            Reason::LimitExceeded => 17,
            Reason::OutputTooSmall => 18,
            Reason::TooFewWords => 19,
            Reason::UnknownType => 20,
            Reason::MissingIrParameter => 21,
            Reason::InvalidTagValue => 22,
            Reason::ArithmeticOverflow => 23,
            Reason::UnsupportedOperation => 24,
            Reason::BufferTooSmall => 25,
            Reason::ResultTooLarge => 26,
            Reason::TooManyCalls => 27,
        }
    }
}

impl Refusal {
    // A refusal that has its number alone.
    pub fn plain(reason: Reason) -> Refusal
        ensures { refusal_of result ≡ plain (number_of reason) }
    {
        Refusal::from(Unread { reason, offset: 0 })
    }
}

impl From<Unread> for Refusal {
    ghost from_gives = { λ u r. refusal_of r ≡ unread (number_of u.reason) u.offset };

    fn from(u: Unread) -> Refusal {
        Refusal {
            reason: u.reason,
            place: NOWHERE,
            offset: u.offset,
            value: Value::of(0),
        }
    }
}

impl Words for Refusal {
    ghost told = { λ r. refused (refusal_of r) };

    fn words(self) -> [u64; 4] {
        [
            self.reason.number(),
            self.place as u64,
            self.offset as u64,
            self.value.low(),
        ]
    }
}

impl Words for Result<Value, Refusal> {
    ghost told = { outcome_of };

    fn words(self) -> [u64; 4] {
        match self {
            Ok(n) => [0, NOWHERE as u64, 0, n.low()],
            Err(r) => r.words(),
        }
    }
}

// A length is a count of bytes.
impl Words for Result<usize, Refusal> {
    ghost told = { length_of };

    fn words(self) -> [u64; 4] {
        self.map(|n| Value::of(n as u64)).words()
    }
}
