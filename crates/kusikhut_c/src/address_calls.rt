// What M says: letters or none, and how far the address is unique.
ghost use Rattle.std.specs.Prelude.{◌≡◌};
ghost use Rattle.address.specs.Makers.{maker_of};
ghost use Rattle.kusikhut.specs.Told.{told, told_maker};

#[unsafe(no_mangle)]
pub extern "C" fn kusikhut_maker(m: u16, v: &mut [u64; 5]) -> u8
    ensures { told result v.new ≡ told_maker (maker_of m) }
{
    kusikhut::kusikhut_maker(m, v)
}
