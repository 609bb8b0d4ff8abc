// Every refusal of documents 01 ("Answer numbers") and 02, once: its number, and the one value that it may carry.
// A call answers `Result<_, Refusal>`, so that a caller passes a refusal on with `?`. What a call can never answer is a
// theorem about its definition (crates/demands), not a type.
#![tactic(auto)]

ghost use Rattle.std.specs.Prelude.{◌≡◌};
ghost use Rattle.answers.specs.Refusals.{number_of, value_of};

#[derive(Clone, Copy, Debug, PartialEq, Eq)]
pub enum Refusal {
    // The bytes or chips end before the frame or its sync tail.
    Short,
    // The length byte is not allowed.
    BadLength,
    // A check is wrong: that of this block, from 1.
    WrongCheck(usize),
    // The lent output is smaller than the result.
    NoRoom,
    // The content is too short or too long.
    BadContent,
    // Not a code word: the one at this place among the call's words, from 0.
    BadWord(usize),
    // Every position was tried, this many, and there is no sync word.
    NoSync(usize),
    // The sync tail is unknown; the sync word stands at this place.
    UnknownTail(usize),
    // The change's place is not below the content's length.
    BadPlace,
    // A buffer, start, count or distance over its limit.
    OutOfRange,
    // CI is none of the four.
    UnknownCi,
    // The body is shorter than its header, or empty.
    ShortBody,
    // There is no such channel.
    NoSuchChannel,
    // The allowance, this many positions, was used up, and positions are left.
    UsedUp(usize),
    // The bytes are no store.
    BadStore,
    // The store is of a version that is not known.
    UnknownVersion,
    // The meter is not held.
    NotHeld,
    // The meter is unsure: no number of its own was heard.
    Unsure,
    // The meter's last number is the largest there is.
    NumbersUsedUp,
    // The store would hold more meters than it has room for.
    StoreFull,
    // The word is too long for correction bytes.
    TooLong,
    // The correction header announces bytes of another code.
    UnknownCode,
    // The proposed word is no code word.
    NotCode,
    // The proposed word differs from the received one in too many bytes.
    TooFar,
}

impl Refusal {
    pub fn number(self) -> u8
        ensures { result ≡ number_of self }
    {
        match self {
            Refusal::Short => 1,
            Refusal::BadLength => 2,
            Refusal::WrongCheck(_) => 3,
            Refusal::NoRoom => 4,
            Refusal::BadContent => 5,
            Refusal::BadWord(_) => 6,
            Refusal::NoSync(_) => 7,
            Refusal::UnknownTail(_) => 8,
            Refusal::BadPlace => 9,
            Refusal::OutOfRange => 10,
            Refusal::UnknownCi => 11,
            Refusal::ShortBody => 12,
            Refusal::NoSuchChannel => 13,
            Refusal::UsedUp(_) => 14,
            Refusal::BadStore => 17,
            Refusal::UnknownVersion => 18,
            Refusal::NotHeld => 19,
            Refusal::Unsure => 20,
            Refusal::NumbersUsedUp => 21,
            Refusal::StoreFull => 22,
            Refusal::TooLong => 23,
            Refusal::UnknownCode => 24,
            Refusal::NotCode => 25,
            Refusal::TooFar => 26,
        }
    }

    // The value that goes with the number, 0 where the refusal carries none.
    pub fn value(self) -> usize
        ensures { result ≡ value_of self }
    {
        match self {
            Refusal::WrongCheck(block) => block,
            Refusal::BadWord(word) => word,
            Refusal::NoSync(tried) => tried,
            Refusal::UnknownTail(place) => place,
            Refusal::UsedUp(tried) => tried,
            _ => 0,
        }
    }
}
