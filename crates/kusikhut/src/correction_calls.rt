// Correction bytes for update frames, in formats A and B, and their header.
ghost use Rattle.std.specs.Prelude.{◌≡◌};
ghost use Rattle.codewords.specs.Corrections.{announced_of};
ghost use Rattle.frame.specs.declared.Format.{Format};
ghost use Rattle.kusikhut.specs.Told.{shown, told_announced};
ghost use Rattle.kusikhut.specs.Calls.{call_correct, call_check_bytes};

use crate::telling::tell;
use frame::Format;

pub fn kusikhut_correction_write_a(s: &[u8], d: &mut [u8], v: &mut [u64; 1]) -> u8
    ensures { shown result v.new d.new ≡ call_correct Format.A s.now d.old }
{
    tell(correction::write(Format::A, s, d), v)
}

pub fn kusikhut_correction_write_b(s: &[u8], d: &mut [u8], v: &mut [u64; 1]) -> u8
    ensures { shown result v.new d.new ≡ call_correct Format.B s.now d.old }
{
    tell(correction::write(Format::B, s, d), v)
}

pub fn kusikhut_correction_check_bytes(s: &[u8], d: &mut [u8], v: &mut [u64; 1]) -> u8
    ensures { shown result v.new d.new ≡ call_check_bytes s.now d.old }
{
    tell(correction::check_bytes(s, d), v)
}

pub fn kusikhut_correction_header(s: &[u8]) -> u8
    ensures { result ≡ told_announced (announced_of s.now) }
{
    match correction::announced(s) {
        Ok(()) => 0,
        Err(why) => why.number(),
    }
}
