// A header written at the start of lent bytes (EN 13757-4:2019, 13.2; document 01, "Extended headers and names").
ghost use Rattle.std.specs.Prelude.{◌≡◌, ◌++◌, ◌+◌, ◌≤◌, ◌<◌, length, drop};
ghost use Rattle.std.proofs.lemmas.List.Edits.{sets};
ghost use Rattle.answers.specs.Outcome.{leaving};
ghost use Rattle.header.specs.Layout.{receiver_place, session_place, header_length, session_bytes, receiver_part, session_part, header_bytes};
ghost use Rattle.header.specs.HeaderWrites.{header_writing_of};

use crate::layout::{Header, HeaderKind, Session};
use address::{Name, put_name};
use answers::Refusal;

fn put_session_at(out: &mut [u8], k: usize, session: Session)
    requires { k + 5 < length out.old }
    ensures { out.new ≡ sets out.old k (session_bytes session) }
{
    let [a, b, c, d] = session.sn.to_le_bytes();
    let check = session.check;
    out[k..k + 6].copy_from_slice(&[a, b, c, d, check.0, check.1]);
}

// M2 and A2, where the kind has them.
fn put_receiver(out: &mut [u8], kind: HeaderKind, receiver: Name)
    requires { header_length kind ≤ length out.old }
    ensures { out.new ≡ sets out.old receiver_place (receiver_part kind receiver) }
{
    if kind.has_receiver() {
        put_name(out, 3, receiver);
    }
}

// SN and PayloadCRC, where the kind has them.
fn put_session(out: &mut [u8], kind: HeaderKind, session: Session)
    requires { header_length kind ≤ length out.old }
    ensures { out.new ≡ sets out.old (session_place kind) (session_part kind session) }
{
    if kind.has_session() {
        put_session_at(out, kind.session_place(), session);
    }
}

// The bytes of the header, from the first place on.
fn put_header(out: &mut [u8], h: Header)
    requires { header_length h.kind ≤ length out.old }
    ensures { out.new ≡ header_bytes h ++ drop (header_length h.kind) out.old }
{
    let kind = h.kind;
    let receiver = h.receiver;
    let session = h.session;
    out[0] = kind.ci();
    out[1] = h.cc;
    out[2] = h.acc;
    put_receiver(out, kind, receiver);
    put_session(out, kind, session);
}

// Writes the header at the start of the lent bytes. Those behind it stay.
pub fn write(h: Header, out: &mut [u8]) -> Result<usize, Refusal>
    ensures { leaving result out.new ≡ header_writing_of h out.old }
{
    let n = h.kind.length();
    if out.len() < n {
        return Err(Refusal::NoRoom);
    }
    put_header(out, h);
    Ok(n)
}
