// A named number of bytes, decoded out of chips.
ghost use Rattle.std.specs.Prelude.{◌≡◌, ◌+◌, ◌≤◌, ◌<◌, length, OnOk, IfErr};
ghost use Rattle.answers.specs.Outcome.{leaving};
ghost use Rattle.chips.specs.Chips.{chip_count, room_limit};
ghost use Rattle.line.specs.Codes.{code_of, chips_in};
ghost use Rattle.line.specs.Decoding.{decoding, decoded};
ghost use Rattle.line.specs.Inner.{unit_of, byte_read, AllWords, NotWords};
ghost use Rattle.line.specs.declared.codes.Code.TheVariants.{ThreeOfSix};

use crate::codes::Code;
use crate::{codes, digits};
use answers::Refusal;

// The byte whose words begin at chip `at`: its chips are fetched at once, and its words read one after the other,
// whatever the code. `Err` is the place of the first word that is no code word.
fn words_at(code: Code, s: &[u8], at: usize) -> Result<u8, usize>
    ensures { result ≡ byte_read (code_of code) s.now at }
{
    let b = code.bits();
    let w = code.width();
    let unit = code.unit();
    let all = chips::word(s, at, unit);
    let mut x: usize = 0;
    for k in 0..code.per_byte() {
        let Some(v) = code.word_value(digits::part(all, w, unit - w - k * w)) else {
            return Err(k);
        };
        x = digits::join(x, b, usize::from(v));
    }
    Ok(x as u8)
}

// The same for three-of-six, quicker: both words are cut out of half a window, which is one load, and looked up (D16).
// The window is shifted up to the place: shifted down by what is left of it, each byte waited for the one before (D16).
fn halves_at(s: &[u8], at: usize) -> Result<u8, usize>
    ensures { result ≡ byte_read (code_of ThreeOfSix) s.now at }
{
    let all = chips::half(s, at / 8) << (at % 8);
    let Some(high) = codes::half_of((all >> 26) % 64) else {
        return Err(0);
    };
    let Some(low) = codes::half_of((all >> 20) % 64) else {
        return Err(1);
    };
    Ok(high * 16 + low)
}

// The byte whose words begin at chip `at`, for three-of-six the quicker way. NRZ never comes here: `fill` takes its
// bytes at once. It keeps an arm of its own, since Manchester takes 1.8 times the steps where it shares one with NRZ.
fn byte_at(code: Code, s: &[u8], at: usize) -> Result<u8, usize>
    ensures { result ≡ byte_read (code_of code) s.now at }
{
    match code {
        Code::Nrz => words_at(code, s, at),
        Code::ThreeOfSix => halves_at(s, at),
        Code::Manchester => words_at(code, s, at),
    }
}

// Decodes as many bytes from chip `start` on as `room` holds; refusal 6. Those of NRZ are taken all at once: a byte is
// its own chips, and none is bad (D16).
fn fill(code: Code, s: &[u8], start: usize, room: &mut [u8]) -> Result<(), Refusal>
    requires { (length room.old ≤ room_limit) × ((length s.now ≤ room_limit)
        × (start + chips_in (code_of code) (length room.old) ≤ chip_count s.now)) }
    ensures ok { OnOk result (AllWords (code_of code) s.now start (length room.old)
        × (room.new ≡ decoding (code_of code) s.now start (length room.old))) }
    ensures err { IfErr result (NotWords (code_of code) s.now start (length room.old)) }
{
    if let Code::Nrz = code {
        chips::bytes(s, start, room);
        return Ok(());
    }
    let m = code.per_byte();
    let unit = code.unit();
    for i in 0..room.len() {
        match byte_at(code, s, start + i * unit) {
            Ok(x) => room[i] = x,
            Err(k) => return Err(Refusal::BadWord(i * m + k)),
        }
    }
    Ok(())
}

// Decodes n bytes from chip `start` of `s` on into the first n bytes of `out`. The refusals in their order: 10, 1, 6,
// 4. More bytes than any buffer holds are refused before anything is multiplied. `out` is written on acceptance only
// (D14).
pub fn decode(code: Code, s: &[u8], start: usize, n: usize, out: &mut [u8]) -> Result<(), Refusal>
    ensures { leaving result out.new ≡ decoded (code_of code) s.now start n out.old }
{
    if !chips::in_range(s, start) {
        return Err(Refusal::OutOfRange);
    }
    if chips::LIMIT < n {
        return Err(Refusal::Short);
    }
    if 8 * s.len() - start < n * code.unit() {
        return Err(Refusal::Short);
    }
    let mut room = [0u8; chips::LIMIT];
    fill(code, s, start, &mut room[..n])?;
    if out.len() < n {
        return Err(Refusal::NoRoom);
    }
    out[..n].copy_from_slice(&room[..n]);
    Ok(())
}
