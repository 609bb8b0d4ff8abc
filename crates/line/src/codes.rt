// What tells the three codes apart: the bits and the chips of a word, the code word of each number, and back.
ghost use Rattle.std.specs.Prelude.{◌≡◌, ◌+◌, ◌*◌, ◌/◌, ◌^◌, ◌<◌};
ghost use Rattle.line.specs.Codes.{code_of, word_value};
ghost use Rattle.line.specs.Inner.{unit_of};
ghost use Rattle.line.specs.declared.codes.Code.TheVariants.{ThreeOfSix, Manchester};

// Which code words stand for the bits.
#[derive(Clone, Copy, Debug, PartialEq, Eq)]
pub enum Code {
    Nrz,
    ThreeOfSix,
    Manchester,
}

// 7.4.2, Table 10: the code words of 0 to 15.
static CODE_WORDS: [u8; 16] = [
    22, 13, 14, 11, 28, 25, 26, 19, 44, 37, 38, 35, 52, 49, 50, 41,
];

// Table 10 from its other side: the number of each word of six chips, eight words to a line. So 11, the fourth word of
// the second line, is 3.
#[rattlefmt::skip]
static NUMBERS: [Option<u8>; 64] = [
    None, None, None, None, None, None, None, None,
    None, None, None, Some(3), None, Some(1), Some(2), None,
    None, None, None, Some(7), None, None, Some(0), None,
    None, Some(5), Some(6), None, Some(4), None, None, None,
    None, None, None, Some(11), None, Some(9), Some(10), None,
    None, Some(15), None, None, Some(8), None, None, None,
    None, Some(13), Some(14), None, Some(12), None, None, None,
    None, None, None, None, None, None, None, None,
];

impl Code {
    // The bits of a word.
    pub(crate) fn bits(self) -> usize
        ensures { result ≡ (code_of self).bits }
    {
        match self {
            Code::Nrz => 8,
            Code::ThreeOfSix => 4,
            Code::Manchester => 1,
        }
    }

    // The chips of a word.
    pub fn width(self) -> usize
        ensures { result ≡ (code_of self).chips }
    {
        match self {
            Code::Nrz => 8,
            Code::ThreeOfSix => 6,
            Code::Manchester => 2,
        }
    }

    // The words of a byte.
    pub(crate) fn per_byte(self) -> usize
        ensures { result ≡ 8 / (code_of self).bits }
    {
        match self {
            Code::Nrz => 1,
            Code::ThreeOfSix => 2,
            Code::Manchester => 8,
        }
    }

    // The chips of a byte.
    pub(crate) fn unit(self) -> usize
        ensures { result ≡ unit_of (code_of self) }
    {
        match self {
            Code::Nrz => 8,
            Code::ThreeOfSix => 12,
            Code::Manchester => 16,
        }
    }

    // The code word of x.
    pub(crate) fn word_of(self, x: usize) -> usize
        requires { x < 2 ^ (code_of self).bits }
        ensures { result ≡ (code_of self).word_of x }
    {
        match self {
            Code::Nrz => x,
            Code::ThreeOfSix => usize::from(CODE_WORDS[x]),
            Code::Manchester => 2 - x,
        }
    }

    // What the word y stands for. Every word of NRZ is a code word.
    pub(crate) fn word_value(self, y: usize) -> Option<u8>
        requires { y < 2 ^ (code_of self).chips }
        ensures { result ≡ word_value (code_of self) y }
    {
        match self {
            Code::Nrz => Some(y as u8),
            Code::ThreeOfSix => half_of(y),
            Code::Manchester => bit_of(y),
        }
    }
}

// What the three-of-six word y stands for.
pub(crate) fn half_of(y: usize) -> Option<u8>
    requires { y < 64 }
    ensures { result ≡ word_value (code_of ThreeOfSix) y }
{
    NUMBERS[y]
}

// What the Manchester word y stands for.
#[tactic(auto, unfolding(crate::specs::Codes::number_for))]
fn bit_of(y: usize) -> Option<u8>
    ensures { result ≡ word_value (code_of Manchester) y }
{
    match y {
        1 => Some(1),
        2 => Some(0),
        _ => None,
    }
}
