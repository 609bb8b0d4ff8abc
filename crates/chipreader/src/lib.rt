// A chip reader: it keeps the lent chips and its place in them, and takes one code word at a time (document 01, "Chips
// and line codes", "Answer numbers"). The work is done by `Place::start` and `Place::step`, on a plain slice (D62).

#![tactic(auto)]

ghost use Rattle.std.specs.Prelude.{◌≡◌};
ghost use Rattle.line.specs.Codes.{code_of};
ghost use Rattle.chipreader.specs.Steps.{start_of, is_closed, step_of, reader_at, reader_after};

use answers::Refusal;
use line::Code;

// A place among the chips, and what was answered there: nothing while no word was asked for.
#[derive(Clone, Copy, Debug, PartialEq, Eq)]
pub struct Place {
    pub at: usize,
    pub answer: Option<Result<u8, Refusal>>,
}

impl Place {
    // Where a reader starts.
    #[tactic(auto, unfolding(crate::specs::Steps::start_of))]
    pub fn start(chips: &[u8], at: usize) -> Place
        ensures { result ≡ start_of chips.now at }
    {
        if chips::in_range(chips, at) {
            Place { at, answer: None }
        } else {
            Place {
                at: 0,
                answer: Some(Err(Refusal::OutOfRange)),
            }
        }
    }

    // Whether a reader was refused when it was made: 10 is never answered afterwards.
    fn is_closed(self) -> bool
        ensures { result ≡ is_closed self.answer }
    {
        matches!(self.answer, Some(Err(Refusal::OutOfRange)))
    }

    // One word: the place behind it, or the same place with the refusal.
    #[tactic(auto, unfolding(crate::specs::Steps::step_of))]
    pub fn step(self, code: Code, chips: &[u8]) -> Place
        ensures { result ≡ step_of (code_of code) chips.now self }
    {
        if self.is_closed() {
            return self;
        }
        let word = line::word_at(code, chips, self.at);
        let at = match word {
            Ok(_) => self.at + code.width(),
            Err(_) => self.at,
        };
        Place {
            at,
            answer: Some(word),
        }
    }
}

#[derive(Clone, Copy, Debug, PartialEq, Eq)]
pub struct ChipReader<'a> {
    pub chips: &'a [u8],
    pub place: Place,
}

impl<'a> ChipReader<'a> {
    // A reader over lent chips.
    pub fn new(chips: &'a [u8], at: usize) -> ChipReader<'a>
        ensures { result ≡ reader_at chips.entry (start_of chips.now at) }
    {
        let place = Place::start(chips, at);
        ChipReader { chips, place }
    }

    // The reader after one word of a code.
    pub fn next(self, code: Code) -> ChipReader<'a>
        ensures { result ≡ reader_after (code_of code) self.entry }
    {
        let place = self.place.step(code, self.chips);
        ChipReader {
            chips: self.chips,
            place,
        }
    }
}

// The place after the word at a chip, for callers that hold a slice and no reader: what a reader of its own answers.
pub fn first(code: Code, chips: &[u8], at: usize) -> Place
    ensures { result ≡ step_of (code_of code) chips.now (start_of chips.now at) }
{
    ChipReader::new(chips, at).next(code).place
}
