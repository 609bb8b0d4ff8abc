// Frames as bytes, in formats A and B.
ghost use Rattle.std.specs.Prelude.{◌≡◌};
ghost use Rattle.frame.specs.Formats.{size_for};
ghost use Rattle.frame.specs.declared.Format.{Format};
ghost use Rattle.kusikhut.specs.Told.{told, shown, told_size};
ghost use Rattle.kusikhut.specs.Calls.{call_read, call_write, call_change};

#[unsafe(no_mangle)]
pub extern "C" fn kusikhut_frame_size_a(l: u8, v: &mut [u64; 1]) -> u8
    ensures { told result v.new ≡ told_size (size_for Format.A l) }
{
    kusikhut::kusikhut_frame_size_a(l, v)
}

#[unsafe(no_mangle)]
pub extern "C" fn kusikhut_frame_size_b(l: u8, v: &mut [u64; 1]) -> u8
    ensures { told result v.new ≡ told_size (size_for Format.B l) }
{
    kusikhut::kusikhut_frame_size_b(l, v)
}

#[unsafe(no_mangle)]
pub extern "C" fn kusikhut_read_a(s: &[u8], d: &mut [u8], v: &mut [u64; 3]) -> u8
    ensures { shown result v.new d.new ≡ call_read Format.A s.now d.old }
{
    kusikhut::kusikhut_read_a(s, d, v)
}

#[unsafe(no_mangle)]
pub extern "C" fn kusikhut_read_b(s: &[u8], d: &mut [u8], v: &mut [u64; 3]) -> u8
    ensures { shown result v.new d.new ≡ call_read Format.B s.now d.old }
{
    kusikhut::kusikhut_read_b(s, d, v)
}

#[unsafe(no_mangle)]
pub extern "C" fn kusikhut_change_a(d: &mut [u8], k: usize, b: u8, v: &mut [u64; 3]) -> u8
    ensures { shown result v.new d.new ≡ call_change Format.A d.old k b }
{
    kusikhut::kusikhut_change_a(d, k, b, v)
}

#[unsafe(no_mangle)]
pub extern "C" fn kusikhut_change_b(d: &mut [u8], k: usize, b: u8, v: &mut [u64; 3]) -> u8
    ensures { shown result v.new d.new ≡ call_change Format.B d.old k b }
{
    kusikhut::kusikhut_change_b(d, k, b, v)
}

#[unsafe(no_mangle)]
pub extern "C" fn kusikhut_write_a(s: &[u8], d: &mut [u8], v: &mut [u64; 1]) -> u8
    ensures { shown result v.new d.new ≡ call_write Format.A s.now d.old }
{
    kusikhut::kusikhut_write_a(s, d, v)
}

#[unsafe(no_mangle)]
pub extern "C" fn kusikhut_write_b(s: &[u8], d: &mut [u8], v: &mut [u64; 1]) -> u8
    ensures { shown result v.new d.new ≡ call_write Format.B s.now d.old }
{
    kusikhut::kusikhut_write_b(s, d, v)
}
