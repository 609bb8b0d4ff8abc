// The correction header (EN 13757-4:2019, 12.8.2.2): an ID of five bits, three times.
ghost use Rattle.std.specs.Prelude.{◌≡◌, ◌<◌};
ghost use Rattle.codewords.specs.Corrections.{bit_of, id_of, announced_of};

use answers::Refusal;

// Bit i of the ID: what two or three of its copies say.
#[tactic(auto, unfolding(codewords::specs::Corrections::bit_of))]
fn bit(h: u16, i: u32) -> u16
    requires { i < 5 }
    ensures { (result ≡ bit_of i h) × (result < 2) }
{
    ((h >> i) % 2 + (h >> (i + 5)) % 2 + (h >> (i + 10)) % 2) / 2
}

// The ID; bit 15 is not looked at.
fn id(h: u16) -> u16
    ensures { result ≡ id_of h }
{
    bit(h, 0) + 2 * bit(h, 1) + 4 * bit(h, 2) + 8 * bit(h, 3) + 16 * bit(h, 4)
}

// Whether the header at the start of s announces Reed-Solomon (255, 223), the one code there is; s may be longer.
pub fn announced(s: &[u8]) -> Result<(), Refusal>
    ensures { result ≡ announced_of s.now }
{
    let [low, high, ..] = s else {
        return Err(Refusal::Short);
    };
    if id(u16::from_le_bytes([*low, *high])) != 1 {
        return Err(Refusal::UnknownCode);
    }
    Ok(())
}
