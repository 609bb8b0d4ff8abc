// Frames as chips: receiving and sending, modes T and C first, then Manchester.
ghost use Rattle.std.specs.Prelude.{◌≡◌};
ghost use Rattle.sync.specs.declared.Kind.TheVariants.{TWithA, CWithA, CWithB, ManchesterWithA};
ghost use Rattle.kusikhut.specs.Told.{shown};
ghost use Rattle.kusikhut.specs.Calls.{call_receive, call_manchester, call_send};

#[unsafe(no_mangle)]
pub extern "C" fn kusikhut_receive(
    s: &[u8],
    k: usize,
    allowance: usize,
    d: &mut [u8],
    v: &mut [u64; 7],
) -> u8
    ensures { shown result v.new d.new ≡ call_receive s.now k allowance d.old }
{
    kusikhut::kusikhut_receive(s, k, allowance, d, v)
}

#[unsafe(no_mangle)]
pub extern "C" fn kusikhut_send_t_a(s: &[u8], d: &mut [u8], v: &mut [u64; 1]) -> u8
    ensures { shown result v.new d.new ≡ call_send TWithA s.now d.old }
{
    kusikhut::kusikhut_send_t_a(s, d, v)
}

#[unsafe(no_mangle)]
pub extern "C" fn kusikhut_send_c_a(s: &[u8], d: &mut [u8], v: &mut [u64; 1]) -> u8
    ensures { shown result v.new d.new ≡ call_send CWithA s.now d.old }
{
    kusikhut::kusikhut_send_c_a(s, d, v)
}

#[unsafe(no_mangle)]
pub extern "C" fn kusikhut_send_c_b(s: &[u8], d: &mut [u8], v: &mut [u64; 1]) -> u8
    ensures { shown result v.new d.new ≡ call_send CWithB s.now d.old }
{
    kusikhut::kusikhut_send_c_b(s, d, v)
}

#[unsafe(no_mangle)]
pub extern "C" fn kusikhut_receive_manchester(
    s: &[u8],
    k: usize,
    d: &mut [u8],
    v: &mut [u64; 7],
) -> u8
    ensures { shown result v.new d.new ≡ call_manchester s.now k d.old }
{
    kusikhut::kusikhut_receive_manchester(s, k, d, v)
}

#[unsafe(no_mangle)]
pub extern "C" fn kusikhut_send_manchester_a(s: &[u8], d: &mut [u8], v: &mut [u64; 1]) -> u8
    ensures { shown result v.new d.new ≡ call_send ManchesterWithA s.now d.old }
{
    kusikhut::kusikhut_send_manchester_a(s, d, v)
}
