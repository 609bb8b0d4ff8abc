// Extended link headers, and the access that CC announces.
ghost use Rattle.std.specs.Prelude.{◌≡◌, replicate};
ghost use Rattle.header.specs.AccessBits.{access_of, access_row};
ghost use Rattle.header.specs.HeaderReads.{header_reading_of};
ghost use Rattle.header.specs.declared.layout.HeaderKind.TheVariants.{Plain, Secured, Addressed, AddressedSecured};
ghost use Rattle.kusikhut.specs.Told.{told, shown, told_header};
ghost use Rattle.kusikhut.specs.Calls.{header_of, call_header};

#[unsafe(no_mangle)]
pub extern "C" fn kusikhut_access(cc: u8) -> u8
    ensures { result ≡ access_row (access_of cc) }
{
    kusikhut::kusikhut_access(cc)
}

#[unsafe(no_mangle)]
pub extern "C" fn kusikhut_header_read(s: &[u8], v: &mut [u64; 14]) -> u8
    ensures { told result v.new ≡ told_header (header_reading_of s.now) }
{
    kusikhut::kusikhut_header_read(s, v)
}

#[unsafe(no_mangle)]
pub extern "C" fn kusikhut_header_write_8c(cc: u8, acc: u8, d: &mut [u8], v: &mut [u64; 1]) -> u8
    ensures { shown result v.new d.new
        ≡ call_header (header_of Plain cc acc 0 0 (replicate 6 0) (replicate 2 0)) d.old }
{
    kusikhut::kusikhut_header_write_8c(cc, acc, d, v)
}

#[unsafe(no_mangle)]
pub extern "C" fn kusikhut_header_write_8d(
    cc: u8,
    acc: u8,
    sn: u32,
    crc: &[u8; 2],
    d: &mut [u8],
    v: &mut [u64; 1],
) -> u8
    ensures { shown result v.new d.new
        ≡ call_header (header_of Secured cc acc 0 sn (replicate 6 0) crc.now) d.old }
{
    kusikhut::kusikhut_header_write_8d(cc, acc, sn, crc, d, v)
}

#[unsafe(no_mangle)]
pub extern "C" fn kusikhut_header_write_8e(
    cc: u8,
    acc: u8,
    m2: u16,
    a2: &[u8; 6],
    d: &mut [u8],
    v: &mut [u64; 1],
) -> u8
    ensures { shown result v.new d.new
        ≡ call_header (header_of Addressed cc acc m2 0 a2.now (replicate 2 0)) d.old }
{
    kusikhut::kusikhut_header_write_8e(cc, acc, m2, a2, d, v)
}

#[unsafe(no_mangle)]
pub extern "C" fn kusikhut_header_write_8f(
    cc: u8,
    acc: u8,
    m2: u16,
    a2: &[u8; 6],
    sn: u32,
    crc: &[u8; 2],
    d: &mut [u8],
    v: &mut [u64; 1],
) -> u8
    ensures { shown result v.new d.new
        ≡ call_header (header_of AddressedSecured cc acc m2 sn a2.now crc.now) d.old }
{
    kusikhut::kusikhut_header_write_8f(cc, acc, m2, a2, sn, crc, d, v)
}
