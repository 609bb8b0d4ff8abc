// The line codes alone.
ghost use Rattle.std.specs.Prelude.{◌≡◌, [], ◌∷◌};
ghost use Rattle.line.specs.Codes.{code_of};
ghost use Rattle.line.specs.OneWord.{word_read};
ghost use Rattle.line.specs.declared.codes.Code.TheVariants.{Nrz, ThreeOfSix, Manchester};
ghost use Rattle.kusikhut.specs.Told.{told, shown, told_number};
ghost use Rattle.kusikhut.specs.Calls.{call_decode, call_encode};

use crate::telling::{Row, tell};
use line::Code;

// Nothing to show: the bytes are in the lent memory.
impl Row<1> for () {
    ghost shows = { λ done. 0 ∷ [] };

    fn row(self) -> [u64; 1] {
        [0]
    }
}

pub fn kusikhut_decode_nrz(s: &[u8], k: usize, n: usize, d: &mut [u8], v: &mut [u64; 1]) -> u8
    ensures { shown result v.new d.new ≡ call_decode Nrz s.now k n d.old }
{
    tell(line::decode(Code::Nrz, s, k, n, d), v)
}

pub fn kusikhut_decode_three_of_six(
    s: &[u8],
    k: usize,
    n: usize,
    d: &mut [u8],
    v: &mut [u64; 1],
) -> u8
    ensures { shown result v.new d.new ≡ call_decode ThreeOfSix s.now k n d.old }
{
    tell(line::decode(Code::ThreeOfSix, s, k, n, d), v)
}

pub fn kusikhut_decode_manchester(
    s: &[u8],
    k: usize,
    n: usize,
    d: &mut [u8],
    v: &mut [u64; 1],
) -> u8
    ensures { shown result v.new d.new ≡ call_decode Manchester s.now k n d.old }
{
    tell(line::decode(Code::Manchester, s, k, n, d), v)
}

pub fn kusikhut_encode_nrz(s: &[u8], d: &mut [u8], v: &mut [u64; 1]) -> u8
    ensures { shown result v.new d.new ≡ call_encode Nrz s.now d.old }
{
    tell(line::encode(Code::Nrz, s, d), v)
}

pub fn kusikhut_encode_three_of_six(s: &[u8], d: &mut [u8], v: &mut [u64; 1]) -> u8
    ensures { shown result v.new d.new ≡ call_encode ThreeOfSix s.now d.old }
{
    tell(line::encode(Code::ThreeOfSix, s, d), v)
}

pub fn kusikhut_encode_manchester(s: &[u8], d: &mut [u8], v: &mut [u64; 1]) -> u8
    ensures { shown result v.new d.new ≡ call_encode Manchester s.now d.old }
{
    tell(line::encode(Code::Manchester, s, d), v)
}

pub fn kusikhut_word_nrz(s: &[u8], k: usize, v: &mut [u64; 1]) -> u8
    ensures { told result v.new ≡ told_number (word_read (code_of Nrz) s.now k) }
{
    tell(line::word_at(Code::Nrz, s, k), v)
}

pub fn kusikhut_word_three_of_six(s: &[u8], k: usize, v: &mut [u64; 1]) -> u8
    ensures { told result v.new ≡ told_number (word_read (code_of ThreeOfSix) s.now k) }
{
    tell(line::word_at(Code::ThreeOfSix, s, k), v)
}

pub fn kusikhut_word_manchester(s: &[u8], k: usize, v: &mut [u64; 1]) -> u8
    ensures { told result v.new ≡ told_number (word_read (code_of Manchester) s.now k) }
{
    tell(line::word_at(Code::Manchester, s, k), v)
}
