// Correction bytes for update frames, in formats A and B, and their header.
ghost use Rattle.std.specs.Prelude.{◌≡◌};
ghost use Rattle.codewords.specs.Corrections.{announced_of};
ghost use Rattle.frame.specs.declared.Format.{Format};
ghost use Rattle.kusikhut.specs.Told.{shown, told_announced};
ghost use Rattle.kusikhut.specs.Calls.{call_correct, call_check_bytes};

#[unsafe(no_mangle)]
pub extern "C" fn kusikhut_correction_write_a(s: &[u8], d: &mut [u8], v: &mut [u64; 1]) -> u8
    ensures { shown result v.new d.new ≡ call_correct Format.A s.now d.old }
{
    kusikhut::kusikhut_correction_write_a(s, d, v)
}

#[unsafe(no_mangle)]
pub extern "C" fn kusikhut_correction_write_b(s: &[u8], d: &mut [u8], v: &mut [u64; 1]) -> u8
    ensures { shown result v.new d.new ≡ call_correct Format.B s.now d.old }
{
    kusikhut::kusikhut_correction_write_b(s, d, v)
}

#[unsafe(no_mangle)]
pub extern "C" fn kusikhut_correction_check_bytes(s: &[u8], d: &mut [u8], v: &mut [u64; 1]) -> u8
    ensures { shown result v.new d.new ≡ call_check_bytes s.now d.old }
{
    kusikhut::kusikhut_correction_check_bytes(s, d, v)
}

#[unsafe(no_mangle)]
pub extern "C" fn kusikhut_correction_header(s: &[u8]) -> u8
    ensures { result ≡ told_announced (announced_of s.now) }
{
    kusikhut::kusikhut_correction_header(s)
}
