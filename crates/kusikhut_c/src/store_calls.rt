// The settings store. `s` is the memory that it is kept in, which the caller owns.
ghost use Rattle.std.specs.Prelude.{◌≡◌};
ghost use Rattle.address.specs.Keys.{key_at};
ghost use Rattle.sessions.specs.StoreCalls.{looking_up, allowance_in};
ghost use Rattle.kusikhut.specs.Told.{told, shown, told_number, told_lookup};
ghost use Rattle.kusikhut.specs.Calls.{call_empty, call_add, call_hear, call_issue, call_restore, call_set_allowance, call_write_store};

#[unsafe(no_mangle)]
pub extern "C" fn kusikhut_store_empty(s: &mut [u8], v: &mut [u64; 1]) -> u8
    ensures { shown result v.new s.new ≡ call_empty s.old }
{
    kusikhut::kusikhut_store_empty(s, v)
}

#[unsafe(no_mangle)]
pub extern "C" fn kusikhut_store_add(
    s: &mut [u8],
    meter: &[u8; 8],
    mode: u8,
    format: u8,
    v: &mut [u64; 1],
) -> u8
    ensures { shown result v.new s.new
        ≡ call_add s.old meter.now mode format }
{
    kusikhut::kusikhut_store_add(s, meter, mode, format, v)
}

#[unsafe(no_mangle)]
pub extern "C" fn kusikhut_store_hear(
    s: &mut [u8],
    meter: &[u8; 8],
    number: u32,
    v: &mut [u64; 1],
) -> u8
    ensures { shown result v.new s.new ≡ call_hear s.old meter.now number }
{
    kusikhut::kusikhut_store_hear(s, meter, number, v)
}

#[unsafe(no_mangle)]
pub extern "C" fn kusikhut_store_issue(s: &mut [u8], meter: &[u8; 8], v: &mut [u64; 1]) -> u8
    ensures { shown result v.new s.new ≡ call_issue s.old meter.now }
{
    kusikhut::kusikhut_store_issue(s, meter, v)
}

#[unsafe(no_mangle)]
pub extern "C" fn kusikhut_store_restore(s: &mut [u8], file: &[u8], v: &mut [u64; 1]) -> u8
    ensures { shown result v.new s.new ≡ call_restore s.old file.now }
{
    kusikhut::kusikhut_store_restore(s, file, v)
}

#[unsafe(no_mangle)]
pub extern "C" fn kusikhut_store_write(s: &[u8], d: &mut [u8], v: &mut [u64; 1]) -> u8
    ensures { shown result v.new d.new ≡ call_write_store s.now d.old }
{
    kusikhut::kusikhut_store_write(s, d, v)
}

#[unsafe(no_mangle)]
pub extern "C" fn kusikhut_store_look_up(s: &[u8], meter: &[u8; 8], v: &mut [u64; 4]) -> u8
    ensures { told result v.new ≡ told_lookup (looking_up (key_at meter.now 0) s.now) }
{
    kusikhut::kusikhut_store_look_up(s, meter, v)
}

#[unsafe(no_mangle)]
pub extern "C" fn kusikhut_store_allowance(s: &[u8], v: &mut [u64; 1]) -> u8
    ensures { told result v.new ≡ told_number (allowance_in s.now) }
{
    kusikhut::kusikhut_store_allowance(s, v)
}

#[unsafe(no_mangle)]
pub extern "C" fn kusikhut_store_set_allowance(s: &mut [u8], allowance: u32, v: &mut [u64; 1]) -> u8
    ensures { shown result v.new s.new ≡ call_set_allowance s.old allowance }
{
    kusikhut::kusikhut_store_set_allowance(s, allowance, v)
}
