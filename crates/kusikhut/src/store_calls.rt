// The settings store. `s` is the memory that it is kept in, which the caller owns.
ghost use Rattle.std.specs.Prelude.{◌≡◌, [], ◌∷◌};
ghost use Rattle.address.specs.Keys.{key_at};
ghost use Rattle.modes.specs.Tables.{mode_number, format_number};
ghost use Rattle.sessions.specs.StoreFile.{mark_of};
ghost use Rattle.sessions.specs.StoreCalls.{looking_up, allowance_in};
ghost use Rattle.kusikhut.specs.Told.{told, shown, told_number, told_lookup};
ghost use Rattle.kusikhut.specs.Calls.{call_empty, call_add, call_hear, call_issue, call_restore, call_set_allowance, call_write_store};

use crate::telling::{Row, tell};
use sessions::Meter;

// M and A as one number.
fn key(meter: [u8; 8]) -> u64
    ensures { result ≡ key_at meter 0 }
{
    address::key_at(&meter, 0)
}

pub fn kusikhut_store_empty(s: &mut [u8], v: &mut [u64; 1]) -> u8
    ensures { shown result v.new s.new ≡ call_empty s.old }
{
    tell(store::empty(s), v)
}

pub fn kusikhut_store_add(
    s: &mut [u8],
    meter: &[u8; 8],
    mode: u8,
    format: u8,
    v: &mut [u64; 1],
) -> u8
    ensures { shown result v.new s.new
        ≡ call_add s.old meter.now mode format }
{
    tell(store::add_by_number(s, key(*meter), mode, format), v)
}

pub fn kusikhut_store_hear(s: &mut [u8], meter: &[u8; 8], number: u32, v: &mut [u64; 1]) -> u8
    ensures { shown result v.new s.new ≡ call_hear s.old meter.now number }
{
    tell(store::hear(s, key(*meter), number), v)
}

pub fn kusikhut_store_issue(s: &mut [u8], meter: &[u8; 8], v: &mut [u64; 1]) -> u8
    ensures { shown result v.new s.new ≡ call_issue s.old meter.now }
{
    tell(store::issue(s, key(*meter)), v)
}

pub fn kusikhut_store_restore(s: &mut [u8], file: &[u8], v: &mut [u64; 1]) -> u8
    ensures { shown result v.new s.new ≡ call_restore s.old file.now }
{
    tell(store::restore(s, file), v)
}

pub fn kusikhut_store_write(s: &[u8], d: &mut [u8], v: &mut [u64; 1]) -> u8
    ensures { shown result v.new d.new ≡ call_write_store s.now d.old }
{
    tell(store::write(s, d), v)
}

// Mode, format, number, the unsure mark.
impl Row<4> for Meter {
    ghost shows = { λ m. mode_number m.mode ∷ format_number m.format ∷ m.number ∷ mark_of m.unsure ∷ [] };

    fn row(self) -> [u64; 4] {
        [
            u64::from(modes::mode_number(self.mode)),
            u64::from(modes::format_number(self.format)),
            u64::from(self.number),
            u64::from(self.unsure),
        ]
    }
}

pub fn kusikhut_store_look_up(s: &[u8], meter: &[u8; 8], v: &mut [u64; 4]) -> u8
    ensures { told result v.new ≡ told_lookup (looking_up (key_at meter.now 0) s.now) }
{
    tell(store::look_up(s, key(*meter)), v)
}

pub fn kusikhut_store_allowance(s: &[u8], v: &mut [u64; 1]) -> u8
    ensures { told result v.new ≡ told_number (allowance_in s.now) }
{
    tell(store::allowance(s), v)
}

pub fn kusikhut_store_set_allowance(s: &mut [u8], allowance: u32, v: &mut [u64; 1]) -> u8
    ensures { shown result v.new s.new ≡ call_set_allowance s.old allowance }
{
    tell(store::set_allowance(s, allowance), v)
}
