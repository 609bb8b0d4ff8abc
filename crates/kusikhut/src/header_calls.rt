// Extended link headers, and the access that CC announces.
ghost use Rattle.std.specs.Prelude.{◌≡◌, ◌∷◌, replicate};
ghost use Rattle.header.specs.AccessBits.{access_of, access_row};
ghost use Rattle.header.specs.HeaderReads.{fields_of, header_reading_of};
ghost use Rattle.header.specs.declared.layout.HeaderKind.TheVariants.{Plain, Secured, Addressed, AddressedSecured};
ghost use Rattle.kusikhut.specs.Told.{told, shown, told_header};
ghost use Rattle.kusikhut.specs.Calls.{header_of, call_header};

use crate::telling::{Row, tell};
use address::{Address, Name};
use header::{Header, HeaderKind, PayloadCheck, Session};

pub fn kusikhut_access(cc: u8) -> u8
    ensures { result ≡ access_row (access_of cc) }
{
    header::announced(cc) as u8
}

// The header's length and its fields.
impl Row<14> for (Header, usize) {
    ghost shows = { λ read. read.1 ∷ fields_of read.0 };

    fn row(self) -> [u64; 14] {
        let (h, n) = self;
        let a = h.receiver.a;
        let check = h.session.check;
        [
            n as u64,
            u64::from(h.kind.ci()),
            u64::from(h.cc),
            u64::from(h.acc),
            u64::from(h.receiver.m),
            u64::from(a.0),
            u64::from(a.1),
            u64::from(a.2),
            u64::from(a.3),
            u64::from(a.4),
            u64::from(a.5),
            u64::from(h.session.sn),
            u64::from(check.0),
            u64::from(check.1),
        ]
    }
}

pub fn kusikhut_header_read(s: &[u8], v: &mut [u64; 14]) -> u8
    ensures { told result v.new ≡ told_header (header_reading_of s.now) }
{
    tell(header::read(s), v)
}

// The parameters are what a caller in C hands over, one by one.
fn write(
    kind: HeaderKind,
    cc: u8,
    acc: u8,
    m2: u16,
    sn: u32,
    a2: &[u8; 6],
    crc: &[u8; 2],
    v: &mut [u64; 1],
    d: &mut [u8],
) -> u8
    ensures { shown result v.new d.new
        ≡ call_header (header_of kind cc acc m2 sn a2.now crc.now) d.old }
{
    let a = Address(a2[0], a2[1], a2[2], a2[3], a2[4], a2[5]);
    let receiver = Name { m: m2, a };
    let check = PayloadCheck(crc[0], crc[1]);
    let session = Session { sn, check };
    let h = Header {
        kind,
        cc,
        acc,
        receiver,
        session,
    };
    tell(header::write(h, d), v)
}

pub fn kusikhut_header_write_8c(cc: u8, acc: u8, d: &mut [u8], v: &mut [u64; 1]) -> u8
    ensures { shown result v.new d.new
        ≡ call_header (header_of Plain cc acc 0 0 (replicate 6 0) (replicate 2 0)) d.old }
{
    write(HeaderKind::Plain, cc, acc, 0, 0, &[0; 6], &[0; 2], v, d)
}

pub fn kusikhut_header_write_8d(
    cc: u8,
    acc: u8,
    sn: u32,
    crc: &[u8; 2],
    d: &mut [u8],
    v: &mut [u64; 1],
) -> u8
    ensures { shown result v.new d.new
        ≡ call_header (header_of Secured cc acc 0 sn (replicate 6 0) crc.now) d.old }
{
    write(HeaderKind::Secured, cc, acc, 0, sn, &[0; 6], crc, v, d)
}

pub fn kusikhut_header_write_8e(
    cc: u8,
    acc: u8,
    m2: u16,
    a2: &[u8; 6],
    d: &mut [u8],
    v: &mut [u64; 1],
) -> u8
    ensures { shown result v.new d.new
        ≡ call_header (header_of Addressed cc acc m2 0 a2.now (replicate 2 0)) d.old }
{
    write(HeaderKind::Addressed, cc, acc, m2, 0, a2, &[0; 2], v, d)
}

pub fn kusikhut_header_write_8f(
    cc: u8,
    acc: u8,
    m2: u16,
    a2: &[u8; 6],
    sn: u32,
    crc: &[u8; 2],
    d: &mut [u8],
    v: &mut [u64; 1],
) -> u8
    ensures { shown result v.new d.new
        ≡ call_header (header_of AddressedSecured cc acc m2 sn a2.now crc.now) d.old }
{
    write(HeaderKind::AddressedSecured, cc, acc, m2, sn, a2, crc, v, d)
}
