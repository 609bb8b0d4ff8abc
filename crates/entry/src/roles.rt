// The exported functions that have two parameters of one type, which a caller in C could take for each other. The calls
// are written after include/kusikhut.h, every parameter under the name and at the place that it has there; the contract
// is the definition, which says what each of them means. (Old and new byte of an update may be exchanged: the check
// that it answers is the same.) That C sees the same order is run by tests/c and tests/second.
ghost use Rattle.std.specs.Prelude.{◌≡◌, replicate};
ghost use Rattle.channels.specs.Plan.{centre_of};
ghost use Rattle.crc.specs.CheckUpdate.{updating};
ghost use Rattle.frame.specs.declared.Format.{Format};
ghost use Rattle.header.specs.declared.layout.HeaderKind.TheVariants.{Plain, Secured, Addressed, AddressedSecured};
ghost use Rattle.line.specs.declared.codes.Code.TheVariants.{Nrz, ThreeOfSix, Manchester};
ghost use Rattle.proposals.specs.Proposals.{proposal_of};
ghost use Rattle.sync.specs.SyncSearch.{search_of};
ghost use Rattle.kusikhut.specs.Told.{told, shown, told_number, told_centre, told_sync};
ghost use Rattle.kusikhut.specs.Calls.{call_receive, call_decode, call_header, header_of};

use kusikhut::{
    kusikhut_centre, kusikhut_decode_manchester, kusikhut_decode_nrz, kusikhut_decode_three_of_six,
    kusikhut_header_write_8c, kusikhut_header_write_8d, kusikhut_header_write_8e,
    kusikhut_header_write_8f, kusikhut_mending_judge_a, kusikhut_mending_judge_b, kusikhut_receive,
    kusikhut_search, kusikhut_update,
};

fn decode_nrz(chips: &[u8], start: usize, n: usize, out: &mut [u8], results: &mut [u64; 1]) -> u8
    ensures { shown result results.new out.new
        ≡ call_decode Nrz chips.now start n out.old }
{
    kusikhut_decode_nrz(chips, start, n, out, results)
}

fn decode_three_of_six(
    chips: &[u8],
    start: usize,
    n: usize,
    out: &mut [u8],
    results: &mut [u64; 1],
) -> u8
    ensures { shown result results.new out.new
        ≡ call_decode ThreeOfSix chips.now start n out.old }
{
    kusikhut_decode_three_of_six(chips, start, n, out, results)
}

fn decode_manchester(
    chips: &[u8],
    start: usize,
    n: usize,
    out: &mut [u8],
    results: &mut [u64; 1],
) -> u8
    ensures { shown result results.new out.new
        ≡ call_decode Manchester chips.now start n out.old }
{
    kusikhut_decode_manchester(chips, start, n, out, results)
}

fn search(chips: &[u8], start: usize, allowance: usize, results: &mut [u64; 2]) -> u8
    ensures { told result results.new ≡ told_sync (search_of chips.now start allowance) }
{
    kusikhut_search(chips, start, allowance, results)
}

fn receive(
    chips: &[u8],
    start: usize,
    allowance: usize,
    out: &mut [u8],
    results: &mut [u64; 7],
) -> u8
    ensures { shown result results.new out.new
        ≡ call_receive chips.now start allowance out.old }
{
    kusikhut_receive(chips, start, allowance, out, results)
}

fn update(old_check: u16, old_byte: u8, new_byte: u8, distance: usize, results: &mut [u64; 1]) -> u8
    ensures { told result results.new ≡ told_number (updating old_check old_byte new_byte distance) }
{
    kusikhut_update(old_check, old_byte, new_byte, distance, results)
}

fn header_write_8c(cc: u8, acc: u8, out: &mut [u8], results: &mut [u64; 1]) -> u8
    ensures { shown result results.new out.new
        ≡ call_header (header_of Plain cc acc 0 0 (replicate 6 0) (replicate 2 0)) out.old }
{
    kusikhut_header_write_8c(cc, acc, out, results)
}

fn header_write_8d(
    cc: u8,
    acc: u8,
    sn: u32,
    crc: &[u8; 2],
    out: &mut [u8],
    results: &mut [u64; 1],
) -> u8
    ensures { shown result results.new out.new
        ≡ call_header (header_of Secured cc acc 0 sn (replicate 6 0) crc.now) out.old }
{
    kusikhut_header_write_8d(cc, acc, sn, crc, out, results)
}

fn header_write_8e(
    cc: u8,
    acc: u8,
    m2: u16,
    a2: &[u8; 6],
    out: &mut [u8],
    results: &mut [u64; 1],
) -> u8
    ensures { shown result results.new out.new
        ≡ call_header (header_of Addressed cc acc m2 0 a2.now (replicate 2 0)) out.old }
{
    kusikhut_header_write_8e(cc, acc, m2, a2, out, results)
}

fn header_write_8f(
    cc: u8,
    acc: u8,
    m2: u16,
    a2: &[u8; 6],
    sn: u32,
    crc: &[u8; 2],
    out: &mut [u8],
    results: &mut [u64; 1],
) -> u8
    ensures { shown result results.new out.new
        ≡ call_header (header_of AddressedSecured cc acc m2 sn a2.now crc.now)
        out.old }
{
    kusikhut_header_write_8f(cc, acc, m2, a2, sn, crc, out, results)
}

fn judge_a(proposal: &[u8], received: &[u8], results: &mut [u64; 1]) -> u8
    ensures { told result results.new
        ≡ told_number (proposal_of Format.A proposal.now received.now) }
{
    kusikhut_mending_judge_a(proposal, received, results)
}

fn judge_b(proposal: &[u8], received: &[u8], results: &mut [u64; 1]) -> u8
    ensures { told result results.new
        ≡ told_number (proposal_of Format.B proposal.now received.now) }
{
    kusikhut_mending_judge_b(proposal, received, results)
}

fn centre(index: usize, channel: usize, centre: &mut [f64; 1]) -> u8
    ensures { told result centre.new ≡ told_centre (centre_of index channel) }
{
    kusikhut_centre(index, channel, centre)
}
