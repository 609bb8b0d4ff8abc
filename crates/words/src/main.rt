// Reads code words one after another with the chip reader and prints what it answers (document 01, "Chips and line
// codes", "Answer numbers"). What a word is and where a reader stands is proved of `chipreader`; this program reads its
// input and prints.
//
// Standard input: one letter, N for NRZ, M for Manchester or T for three-of-six; the chip to start at, as eight bytes,
// highest first; then the chips, up to the end of the input.
//     A capital letter: each word has a reader of its own, made where the last one stopped (`chipreader::first`).
//     A small letter: one place is kept (`Place::start`, `Place::step`) and asked once more after the refusal
//     that ends it.
// Standard output: the line `number place value`, then these three for each word that was asked for. The number is the
// answer's; the place is the chip behind an accepted word, or the chip where the reader stays at a refusal; the value
// is what the word stands for, or the refusal's. Any other input: the one line `no such reader`.
#![tactic(auto)]

ghost use Rattle.std.specs.Prelude.{◌<◌, length, take, IfOk};
ghost use Rattle.std.specs.Io.{ReadsAtMost};
ghost use Rattle.std.specs.Io.KnownBytes.{Consumes, IsAtEnd};

use chipreader::Place;
use line::Code;
use std::io;
use std::io::Read;

// The chips stand behind the letter and the eight bytes of a start.
const CHIPS: usize = 9;

// A reader is asked for at most so many words: 4,096 of two chips each in the longest buffer, and the refusal.
const MOST: usize = 4097;

// What a letter asks for: the line code, and whether one reader keeps its place.
#[derive(Clone, Copy)]
struct Request {
    code: Code,
    kept: bool,
}

fn asked(letter: u8) -> Option<Request> {
    let code = match letter.to_ascii_lowercase() {
        b'n' => Code::Nrz,
        b'm' => Code::Manchester,
        b't' => Code::ThreeOfSix,
        _ => return None,
    };
    let kept = letter.is_ascii_lowercase();
    Some(Request { code, kept })
}

// Reads until the buffer is full or the input ends, and answers how many bytes it put at the buffer's start. What an
// error leaves behind is not promised: so it is no public function that the program `bands`, which has the same, could
// share (every public contract settles all, docs/DECISIONS.md, D3).
fn read_full<R: Read>(input: &mut R, buffer: &mut [u8]) -> io::Result<usize>
    ensures bound { ReadsAtMost result buffer.new }
    ensures bytes { IfOk result (λ n. Consumes (R.remaining input.old) (R.remaining input.new) (take n buffer.new)) }
    ensures end { IfOk result (λ n. n < length buffer.new → IsAtEnd (R.remaining input.new)) }
{
    let mut done = 0;
    // a `while`: each step is as long as what a read gave
    while done < buffer.len() {
        let n = input.read(&mut buffer[done..])?;
        if n == 0 {
            break;
        }
        done += n;
    }
    Ok(done)
}

// The chip to start at: the eight bytes behind the letter, highest first.
fn start_in(input: &[u8; 1034]) -> usize {
    let mut start = [0u8; 8];
    start.copy_from_slice(&input[1..CHIPS]);
    usize::from_be_bytes(start)
}

// The line of a place; answers whether a word was accepted there.
fn print_place(rt: &impl Print, place: Place) -> io::Result<bool> {
    let at = place.at;
    match place.answer {
        // no word was asked for: never so behind one
        None => Ok(false),
        Some(Ok(x)) => {
            println!(rt; "0 {at} {x}")?;
            Ok(true)
        }
        Some(Err(r)) => {
            println!(rt; "{} {at} {}", r.number(), r.value())?;
            Ok(false)
        }
    }
}

// Each word with a reader of its own.
fn print_anew(rt: &impl Print, code: Code, chips: &[u8], start: usize) -> io::Result<()> {
    let mut at = start;
    for _ in 0..MOST {
        let place = chipreader::first(code, chips, at);
        if !print_place(rt, place)? {
            return Ok(());
        }
        at = place.at;
    }
    Ok(())
}

// All words with one place that is kept, which is asked once more after its refusal.
fn print_kept(rt: &impl Print, code: Code, chips: &[u8], start: usize) -> io::Result<()> {
    let mut place = Place::start(chips, start);
    for _ in 0..MOST {
        place = place.step(code, chips);
        if !print_place(rt, place)? {
            print_place(rt, place.step(code, chips))?;
            return Ok(());
        }
    }
    Ok(())
}

fn print_words(rt: &impl Print, request: Request, chips: &[u8], start: usize) -> io::Result<()> {
    println!(rt; "number place value")?;
    if request.kept {
        print_kept(rt, request.code, chips, start)
    } else {
        print_anew(rt, request.code, chips, start)
    }
}

fn main(rt: HostRuntime) -> io::Result<()> {
    // room for one byte of chips more than a received buffer may have: behind it nothing is read, since 10 is certain
    let mut input = [0u8; 1034];
    let n = read_full(&mut rt.stdin(), &mut input)?;
    match asked(input[0]) {
        Some(request) if n >= CHIPS => print_words(
            &rt,
            request,
            &input[CHIPS..n],
            start_in(&input),
        ),
        _ => println!(rt; "no such reader"),
    }
}
