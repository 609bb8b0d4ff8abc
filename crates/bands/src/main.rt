// Lists the channels of a mode N band in hertz (document 01, "Mode N channels"). What an input names and which lines
// its list has is proved of `channels::band_of` and `channels::line_at`; this program reads and prints.
#![tactic(auto)]

ghost use Rattle.std.specs.Prelude.{◌<◌, length, take, IfOk};
ghost use Rattle.std.specs.Io.{ReadsAtMost};
ghost use Rattle.std.specs.Io.KnownBytes.{Consumes, IsAtEnd};

use channels::Band;
use std::io;
use std::io::Read;

// Reads until the buffer is full or the input ends, and answers how many bytes it put at the buffer's start. What an
// error leaves behind is not promised: so it is no public function that the program `words`, which has the same, could
// share (every public contract settles all, docs/DECISIONS.md, D3).
fn read_full<R: Read>(input: &mut R, buffer: &mut [u8]) -> io::Result<usize>
    ensures bound { ReadsAtMost result buffer.new }
    ensures bytes { IfOk result (λ n. Consumes (R.remaining input.old) (R.remaining input.new) (take n buffer.new)) }
    ensures end { IfOk result (λ n. n < length buffer.new → IsAtEnd (R.remaining input.new)) }
{
    let mut done = 0;
    // a turn may fill several places: its step is not 1
    while done < buffer.len() {
        let n = input.read(&mut buffer[done..])?;
        if n == 0 {
            break;
        }
        done += n;
    }
    Ok(done)
}

fn print_band(rt: &impl Print, band: Band) -> io::Result<()> {
    println!(rt; "index channel hz")?;
    for k in 0..channels::lines_of(Some(band)) {
        if let Some(line) = channels::line_at(Some(band), k) {
            println!(rt; "{} {} {}", line.index, line.channel, line.hertz)?;
        }
    }
    Ok(())
}

fn main(rt: HostRuntime) -> io::Result<()> {
    // a third byte tells a longer input from a letter and a line feed
    let mut buffer = [0u8; 3];
    let n = read_full(&mut rt.stdin(), &mut buffer)?;
    match channels::band_of(&buffer[..n]) {
        Some(band) => print_band(&rt, band),
        None => println!(rt; "no such band"),
    }
}
