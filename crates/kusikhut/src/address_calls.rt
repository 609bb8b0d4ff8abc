// What M says: letters or none, and how far the address is unique.
ghost use Rattle.std.specs.Prelude.{◌≡◌};
ghost use Rattle.address.specs.Makers.{maker_of};
ghost use Rattle.kusikhut.specs.Told.{told, told_maker};

pub fn kusikhut_maker(m: u16, v: &mut [u64; 5]) -> u8
    ensures { told result v.new ≡ told_maker (maker_of m) }
{
    let maker = address::maker_of(m);
    let soft = maker.reach as u64;
    *v = match maker.spelled {
        Some((first, second, third)) => [
            1,
            u64::from(first),
            u64::from(second),
            u64::from(third),
            soft,
        ],
        None => [0, 0, 0, 0, soft],
    };
    0
}
