// Frames in formats A and B as bytes: read, write, change (EN 13757-4:2019, 12.2 to 12.5; document 01, "Frames",
// "Changing a byte"). Refusals are those of crate `answers`.
// What differs between the formats stands in the two impls of `FrameFormat`; all else is written once.
#![tactic(auto)]

ghost use Rattle.std.specs.Prelude.{◌≡◌, ◌≤◌};
ghost use Rattle.answers.specs.Outcome.{leaving};
ghost use Rattle.frame.specs.declared.Format.{Format};
ghost use Rattle.frame.specs.declared.Format.TheVariants.{A, B};
ghost use Rattle.frame.specs.Formats.{form_of, frame_size, size_for};
ghost use Rattle.frame.specs.Judging.{judge_of};
ghost use Rattle.frame.specs.Reads.{reading_of};
ghost use Rattle.frame.specs.Writes.{writing_of};
ghost use Rattle.frame.specs.Changes.{changing_of};

use answers::Refusal;
use blocks::Cut;

// The two frame formats.
#[derive(Clone, Copy, Debug, PartialEq, Eq)]
pub enum Format {
    A,
    B,
}

// What a length byte or a buffer says of a frame: its size and that of its content.
#[derive(Clone, Copy, Debug, PartialEq, Eq)]
pub struct Frame {
    pub size: usize,
    pub n: usize,
}

// What a format settles: its limits, and what a content's length and a length byte say of one another and of the frame.
pub trait FrameFormat {
    // Which of the two it is.
    ghost format: { Format };

    // The shortest and the longest content.
    const SHORTEST: usize;

    const LONGEST: usize;

    // How many bytes the first check covers at most, L counted, and how many each later one.
    const FIRST: usize;

    const LATER: usize;

    // L of a content of n bytes.
    fn length_byte(n: usize) -> u8
        requires { n ≤ (form_of format).longest }
        ensures { result ≡ (form_of format).length_byte n };

    // The size of a frame whose content has n bytes.
    fn size(n: usize) -> usize
        requires { n ≤ (form_of format).longest }
        ensures { result ≡ frame_size format n };

    // The size of the frame that begins with the length byte l, and of its content.
    fn frame_size(l: u8) -> Result<Frame, Refusal>
        ensures { result ≡ size_for format l };
}

// Format A: L counts no check; L and nine bytes have the first check, every 16 bytes after them one more.
#[derive(Clone, Copy, Debug, PartialEq, Eq)]
pub struct FormatA {}

impl FrameFormat for FormatA {
    ghost format = { A };

    const SHORTEST: usize = 10;

    const LONGEST: usize = 255;

    const FIRST: usize = 10;

    const LATER: usize = 16;

    fn length_byte(n: usize) -> u8 {
        n as u8
    }

    // L, content and the first check, and a check for each begun 16 of the n - 9 bytes behind the first span.
    fn size(n: usize) -> usize {
        n + 3 + 2 * ((n + 6) / 16)
    }

    fn frame_size(l: u8) -> Result<Frame, Refusal> {
        let n = usize::from(l);
        if n < Self::SHORTEST {
            return Err(Refusal::BadLength);
        }
        let size = Self::size(n);
        Ok(Frame { size, n })
    }
}

// Format B: L counts the checks; L and 125 bytes have the first check, what comes after them the second.
#[derive(Clone, Copy, Debug, PartialEq, Eq)]
pub struct FormatB {}

impl FrameFormat for FormatB {
    ghost format = { B };

    const SHORTEST: usize = 10;

    const LONGEST: usize = 251;

    const FIRST: usize = 126;

    const LATER: usize = 126;

    fn length_byte(n: usize) -> u8 {
        if n < Self::FIRST {
            (n + 2) as u8
        } else {
            (n + 4) as u8
        }
    }

    fn size(n: usize) -> usize {
        if n < Self::FIRST { n + 3 } else { n + 5 }
    }

    fn frame_size(l: u8) -> Result<Frame, Refusal> {
        let l = usize::from(l);
        let size = l + 1;
        if l < Self::SHORTEST + 2 {
            return Err(Refusal::BadLength);
        }
        if l < Self::FIRST + 2 {
            let n = l - 2;
            return Ok(Frame { size, n });
        }
        if l < Self::FIRST + 4 {
            return Err(Refusal::BadLength);
        }
        let n = l - 4;
        Ok(Frame { size, n })
    }
}

impl Format {
    // How many bytes the first check covers at most, L included, and how many each later one.
    fn cut(self) -> Cut
        ensures { (result.first ≡ (form_of self).first) × (result.later ≡ (form_of self).later) }
    {
        match self {
            Format::A => Cut {
                first: FormatA::FIRST,
                later: FormatA::LATER,
            },
            Format::B => Cut {
                first: FormatB::FIRST,
                later: FormatB::LATER,
            },
        }
    }

    pub fn shortest(self) -> usize
        ensures { result ≡ (form_of self).shortest }
    {
        match self {
            Format::A => FormatA::SHORTEST,
            Format::B => FormatB::SHORTEST,
        }
    }

    pub fn longest(self) -> usize
        ensures { result ≡ (form_of self).longest }
    {
        match self {
            Format::A => FormatA::LONGEST,
            Format::B => FormatB::LONGEST,
        }
    }

    fn length_byte(self, n: usize) -> u8
        requires { n ≤ (form_of self).longest }
        ensures { result ≡ (form_of self).length_byte n }
    {
        match self {
            Format::A => FormatA::length_byte(n),
            Format::B => FormatB::length_byte(n),
        }
    }

    fn size(self, n: usize) -> usize
        requires { n ≤ (form_of self).longest }
        ensures { result ≡ frame_size self n }
    {
        match self {
            Format::A => FormatA::size(n),
            Format::B => FormatB::size(n),
        }
    }

    // The size of the frame that begins with the length byte l, and of its content.
    pub fn frame_size(self, l: u8) -> Result<Frame, Refusal>
        ensures { result ≡ size_for self l }
    {
        match self {
            Format::A => FormatA::frame_size(l),
            Format::B => FormatB::frame_size(l),
        }
    }
}

// Does s begin with a frame? s may be longer.
pub fn judge(f: Format, s: &[u8]) -> Result<Frame, Refusal>
    ensures { result ≡ judge_of f s.now }
{
    if s.is_empty() {
        return Err(Refusal::Short);
    }
    let frame = f.frame_size(s[0])?;
    if s.len() < frame.size {
        return Err(Refusal::Short);
    }
    match f.cut().first_wrong(s, frame.n + 1) {
        Some(block) => Err(Refusal::WrongCheck(block)),
        None => Ok(frame),
    }
}

// Reads the frame that s begins with: its content stands in the first n bytes of out then, the others stay.
pub fn read(f: Format, s: &[u8], out: &mut [u8]) -> Result<Frame, Refusal>
    ensures { leaving result out.new ≡ reading_of f s.now out.old }
{
    let frame = judge(f, s)?;
    if out.len() < frame.n {
        return Err(Refusal::NoRoom);
    }
    f.cut().take_out(s, frame.n, out);
    Ok(frame)
}

// Writes the frame of the content from the first byte of out on; the bytes after it stay.
pub fn write(f: Format, content: &[u8], out: &mut [u8]) -> Result<usize, Refusal>
    ensures { leaving result out.new ≡ writing_of f content.now out.old }
{
    let n = content.len();
    if n < f.shortest() {
        return Err(Refusal::BadContent);
    }
    if f.longest() < n {
        return Err(Refusal::BadContent);
    }
    let size = f.size(n);
    if out.len() < size {
        return Err(Refusal::NoRoom);
    }
    f.cut().put_all(f.length_byte(n), content, out);
    Ok(size)
}

// Sets one content byte of the frame that s begins with; its check is mended, all other bytes stay.
pub fn change(f: Format, s: &mut [u8], place: usize, byte: u8) -> Result<Frame, Refusal>
    ensures { leaving result s.new ≡ changing_of f s.old place byte }
{
    let frame = judge(f, s)?;
    if frame.n <= place {
        return Err(Refusal::BadPlace);
    }
    f.cut().set_byte(s, frame.n + 1, place + 1, byte);
    Ok(frame)
}
