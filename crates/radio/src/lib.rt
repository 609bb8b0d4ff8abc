// Frames in chips: receive and send (EN 13757-4:2019, 6.4, 7.4.2, 9.4; document 01, "Sync search", "Answer numbers").
#![tactic(auto)]

ghost use Rattle.std.specs.Prelude.{◌≡◌, ◌+◌, ◌^◌, ◌≤◌, ◌<◌, length};
ghost use Rattle.answers.specs.Outcome.{leaving};
ghost use Rattle.line.specs.Decoding.{decoded};
ghost use Rattle.sync.specs.Kinds.{lead_of, sync_bytes};
ghost use Rattle.radio.specs.KindParts.{code_for, format_of, line_of};
ghost use Rattle.radio.specs.Receiving.{frame_after, reception_of, manchester_of};
ghost use Rattle.radio.specs.Sending.{sending_of, putting};

use answers::Refusal;
use frame::Format;
use line::Code;
use sync::{Found, Kind};

// What receiving answers: a frame of this kind, whose sync word stands at `place`, found as the `tried`-th position:
// `size` bytes of frame, `n` bytes of content, which now stand in the lent memory. Manchester has no search: its place
// is the start, and no position was tried.
#[derive(Clone, Copy, Debug, PartialEq, Eq)]
pub struct Reception {
    pub kind: Kind,
    pub place: usize,
    pub tried: usize,
    pub size: usize,
    pub n: usize,
}

// The largest frame: format A with 255 bytes of content.
const FRAME: usize = 290;

// The line code of a kind. This and the next two are functions and no methods: Kind is sync's, and a trait for one type
// would only say their contracts twice.
fn code_of(kind: Kind) -> Code
    ensures { result ≡ code_for kind }
{
    match kind {
        Kind::TWithA => Code::ThreeOfSix,
        Kind::CWithA => Code::Nrz,
        Kind::CWithB => Code::Nrz,
        Kind::ManchesterWithA => Code::Manchester,
    }
}

// The frame format of a kind.
fn format_of(kind: Kind) -> Format
    ensures { result ≡ format_of kind }
{
    match kind {
        Kind::TWithA => Format::A,
        Kind::CWithA => Format::A,
        Kind::CWithB => Format::B,
        Kind::ManchesterWithA => Format::A,
    }
}

// The sync chips of a kind, as bytes.
fn sync_bytes(kind: Kind) -> &'static [u8]
    ensures { (result.now ≡ sync_bytes kind) × (length result.now ≤ 4) }
{
    match kind {
        Kind::TWithA => &[0x54, 0x3D],
        Kind::CWithA => &[0x54, 0x3D, 0x54, 0xCD],
        Kind::CWithB => &[0x54, 0x3D, 0x54, 0x3D],
        Kind::ManchesterWithA => &[],
    }
}

// The first n bytes of the frame of a kind whose sync chips stand at `place`.
fn decode(kind: Kind, place: usize, s: &[u8], n: usize, out: &mut [u8]) -> Result<(), Refusal>
    requires { place + lead_of kind < 2 ^ 64 }
    ensures { leaving result out.new ≡ decoded (line_of kind) s.now (place + lead_of kind) n out.old }
{
    line::decode(code_of(kind), s, place + 8 * sync_bytes(kind).len(), n, out)
}

// The frame of a kind behind its sync chips: the first byte, which has the length, then the whole, decoded beside the
// lent memory.
#[tactic(auto, unfolding(crate::specs::Receiving::frame_after, crate::specs::Receiving::by_size, // by what is decoded
crate::specs::Receiving::after_words, line::specs::Decoding::decoded))]
fn frame_after(kind: Kind, found: Found, s: &[u8], out: &mut [u8]) -> Result<Reception, Refusal>
    requires { found.place + lead_of kind < 2 ^ 64 }
    ensures { leaving result out.new ≡ frame_after kind found.place found.tried s.now out.old }
{
    let mut bytes = [0u8; FRAME];
    decode(kind, found.place, s, 1, &mut bytes)?;
    let size = format_of(kind).frame_size(bytes[0])?.size;
    decode(kind, found.place, s, size, &mut bytes)?;
    let frame = frame::read(format_of(kind), &bytes[..size], out)?;
    Ok(Reception {
        kind,
        place: found.place,
        tried: found.tried,
        size: frame.size,
        n: frame.n,
    })
}

// A frame of mode T or C, searched from `start` on over at most `allowance` positions.
#[tactic(auto, unfolding(crate::specs::Receiving::reception_of, // by what the search answers
crate::specs::Receiving::by_sync, crate::specs::Receiving::by_tail))]
pub fn receive(
    s: &[u8],
    start: usize,
    allowance: usize,
    out: &mut [u8],
) -> Result<Reception, Refusal>
    ensures { leaving result out.new ≡ reception_of s.now start allowance out.old }
{
    let found = sync::search(s, start, allowance)?;
    let kind = sync::tail_at(s, found.place)?;
    frame_after(kind, found, s, out)
}

// A Manchester frame whose first chip stands at `start`: decoding its first byte judges the start.
pub fn receive_manchester(s: &[u8], start: usize, out: &mut [u8]) -> Result<Reception, Refusal>
    ensures { leaving result out.new ≡ manchester_of s.now start out.old }
{
    let named = Found {
        place: start,
        tried: 0,
    };
    frame_after(Kind::ManchesterWithA, named, s, out)
}

// The frame p as chips behind its sync chips. The line code judges the room, so that nothing is written too early.
#[tactic(auto, unfolding(crate::specs::Sending::putting, crate::specs::Sending::air_of, // by what is encoded
line::specs::Encoding::encoded))]
fn put(kind: Kind, p: &[u8], out: &mut [u8]) -> Result<usize, Refusal>
    ensures { leaving result out.new ≡ putting kind p.now out.old }
{
    let sync = sync_bytes(kind);
    let Some((front, rest)) = out.split_at_mut_checked(sync.len()) else {
        return Err(Refusal::NoRoom);
    };
    let size = line::encode(code_of(kind), p, rest)?;
    front.copy_from_slice(sync);
    Ok(sync.len() + size)
}

// The content as a frame in chips.
#[tactic(auto, unfolding(crate::specs::Sending::sending_of, frame::specs::Writes::writing_of))]
pub fn send(kind: Kind, content: &[u8], out: &mut [u8]) -> Result<usize, Refusal>
    ensures { leaving result out.new ≡ sending_of kind content.now out.old }
{
    let mut bytes = [0u8; FRAME];
    let size = frame::write(format_of(kind), content, &mut bytes)?;
    put(kind, &bytes[..size], out)
}
