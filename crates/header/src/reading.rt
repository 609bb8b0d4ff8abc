// A header read from the start of a body (EN 13757-4:2019, 13.2; document 01, "Extended headers and names").
ghost use Rattle.std.specs.Prelude.{◌≡◌, ◌+◌, ◌≤◌, ◌<◌, length};
ghost use Rattle.header.specs.Layout.{header_length};
ghost use Rattle.header.specs.HeaderReads.{four_at, session_at, header_in, header_reading_of};

use crate::layout::{Header, HeaderKind, PayloadCheck, Session};
use address::{Address, Name, name_at};
use answers::Refusal;

// Four bytes from place k on, the least significant first (13.2.1).
fn four_at(s: &[u8], k: usize) -> u32
    requires { k + 3 < length s.now }
    ensures { result ≡ four_at s.now k }
{
    u32::from_le_bytes([s[k], s[k + 1], s[k + 2], s[k + 3]])
}

fn session_at(s: &[u8], k: usize) -> Session
    requires { k + 5 < length s.now }
    ensures { result ≡ session_at s.now k }
{
    Session {
        sn: four_at(s, k),
        check: PayloadCheck(s[k + 4], s[k + 5]),
    }
}

// M2 and A2 of a header of this kind.
fn receiver_in(kind: HeaderKind, body: &[u8]) -> Name
    requires { header_length kind ≤ length body.now }
    ensures { result ≡ (header_in kind body.now).receiver }
{
    if kind.has_receiver() {
        name_at(body, 3)
    } else {
        Name {
            m: 0,
            a: Address(0, 0, 0, 0, 0, 0),
        }
    }
}

// SN and PayloadCRC of a header of this kind.
fn session_in(kind: HeaderKind, body: &[u8]) -> Session
    requires { header_length kind ≤ length body.now }
    ensures { result ≡ (header_in kind body.now).session }
{
    if kind.has_session() {
        session_at(body, kind.session_place())
    } else {
        Session {
            sn: 0,
            check: PayloadCheck(0, 0),
        }
    }
}

// The header of this kind at the start of the body.
fn header_in(kind: HeaderKind, body: &[u8]) -> Header
    requires { header_length kind ≤ length body.now }
    ensures { result ≡ header_in kind body.now }
{
    let receiver = receiver_in(kind, body);
    let session = session_in(kind, body);
    Header {
        kind,
        cc: body[1],
        acc: body[2],
        receiver,
        session,
    }
}

// Reads the header at the start of a body: what it is, and how long. Bytes behind it are not looked at.
pub fn read(body: &[u8]) -> Result<(Header, usize), Refusal>
    ensures { result ≡ header_reading_of body.now }
{
    if body.is_empty() {
        return Err(Refusal::ShortBody);
    }
    let kind = HeaderKind::try_from(body[0])?;
    let n = kind.length();
    if body.len() < n {
        return Err(Refusal::ShortBody);
    }
    Ok((header_in(kind, body), n))
}
