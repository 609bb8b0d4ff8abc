// When a meter may be called (EN 13757-4:2019, 12.6.3.2, Table 37).
ghost use Rattle.std.specs.Prelude.{◌≡◌};
ghost use Rattle.header.specs.AccessBits.{access_of};

// Table 37, row by row, each with the number that document 01 gives it.
#[derive(Clone, Copy, Debug, PartialEq, Eq)]
pub enum Access {
    NoAccess = 0,
    NoneForNow = 1,
    Limited = 2,
    Unlimited = 3,
}

// The access that the byte CC announces.
pub fn announced(cc: u8) -> Access
    ensures { result ≡ access_of cc }
{
    let b = cc / 128 % 2;
    let a = cc / 4 % 2;
    match (b, a) {
        (0, 0) => Access::NoAccess,
        (0, _) => Access::NoneForNow,
        (_, 0) => Access::Limited,
        _ => Access::Unlimited,
    }
}
