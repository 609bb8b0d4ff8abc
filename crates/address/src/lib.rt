// What a meter, or whoever else sends, is called (EN 13757-4:2019, 12.5.5, 12.5.6; document 01, "Extended headers and
// names"; document 02, 2/14): M, the number of its maker, with what it says, and A, six bytes.

#![tactic(auto)]

ghost use Rattle.std.specs.Prelude.{◌≡◌, [], ◌∷◌, ◌+◌, ◌<◌, length};
ghost use Rattle.std.proofs.lemmas.List.Edits.{sets};
ghost use Rattle.address.specs.Letters.{is_letter, letters_of};
ghost use Rattle.address.specs.Makers.{reach_of, maker_of};
ghost use Rattle.address.specs.Names.{two_at, name_bytes, name_at};
ghost use Rattle.address.specs.Keys.{four_at, four_bytes, key_at, key_bytes};

// How far an address is unique: worldwide, or at least within radio range. A call tells it by its number.
#[derive(Clone, Copy, Debug, PartialEq, Eq)]
pub enum Reach {
    Hard = 0,
    Soft = 1,
}

// What M says: three letters as ASCII bytes, 'A' to 'Z', or none, and hard or soft in both cases.
#[derive(Clone, Copy, Debug, PartialEq, Eq)]
pub struct Maker {
    pub spelled: Option<(u8, u8, u8)>,
    pub reach: Reach,
}

// A: six bytes as they are sent. No array: a proof takes an array for a list of any length, and `name_at_append` of
// proofs/NameLaws, that a name is read where it was written, holds of every value of this type.
#[derive(Clone, Copy, Debug, PartialEq, Eq)]
pub struct Address(pub u8, pub u8, pub u8, pub u8, pub u8, pub u8);

// M and A.
#[derive(Clone, Copy, Debug, PartialEq, Eq)]
pub struct Name {
    pub m: u16,
    pub a: Address,
}

fn is_letter(v: u16) -> bool
    ensures { result ≡ is_letter v }
{
    (1..=26).contains(&v)
}

// The letters of M (12.5.5): five bits each, below the top bit.
fn letters(m: u16) -> Option<(u8, u8, u8)>
    ensures { result ≡ letters_of m }
{
    let first = m / 1024 % 32;
    let second = m / 32 % 32;
    let third = m % 32;
    if is_letter(first) && is_letter(second) && is_letter(third) {
        Some(((first + 64) as u8, (second + 64) as u8, (third + 64) as u8))
    } else {
        None
    }
}

// What the top bit of M says of the address (12.5.5).
fn reach_of(m: u16) -> Reach
    ensures { result ≡ reach_of m }
{
    if m / 32768 % 2 == 0 {
        Reach::Hard
    } else {
        Reach::Soft
    }
}

// The maker of M, or of a header's M2 (13.2.9).
pub fn maker_of(m: u16) -> Maker
    ensures { result ≡ maker_of m }
{
    Maker {
        spelled: letters(m),
        reach: reach_of(m),
    }
}

// Numbers are sent with the least significant byte first (12.2).
pub fn two_at(s: &[u8], k: usize) -> u16
    requires { k + 1 < length s.now }
    ensures { result ≡ two_at s.now k }
{
    u16::from_le_bytes([s[k], s[k + 1]])
}

// M and A, from place k on.
pub fn name_at(s: &[u8], k: usize) -> Name
    requires { k + 7 < length s.now }
    ensures { result ≡ name_at s.now k }
{
    Name {
        m: two_at(s, k),
        a: Address(s[k + 2], s[k + 3], s[k + 4], s[k + 5], s[k + 6], s[k + 7]),
    }
}

// Stores four bytes from place k on.
pub fn put_four(out: &mut [u8], k: usize, a: u8, b: u8, c: u8, d: u8)
    requires { k + 3 < length out.old }
    ensures { out.new ≡ sets out.old k (a ∷ b ∷ c ∷ d ∷ []) }
{
    out[k..k + 4].copy_from_slice(&[a, b, c, d]);
}

// Stores M and A from place k on.
pub fn put_name(out: &mut [u8], k: usize, name: Name)
    requires { k + 7 < length out.old }
    ensures { out.new ≡ sets out.old k (name_bytes name) }
{
    let [low, high] = name.m.to_le_bytes();
    let a = name.a;
    out[k..k + 8].copy_from_slice(&[low, high, a.0, a.1, a.2, a.3, a.4, a.5]);
}

// The number in four bytes from place k on, highest first.
pub fn four_at(s: &[u8], k: usize) -> u32
    requires { k + 3 < length s.now }
    ensures { result ≡ four_at s.now k }
{
    u32::from_be_bytes([s[k], s[k + 1], s[k + 2], s[k + 3]])
}

// The number in eight bytes from place k on, highest first.
pub fn key_at(s: &[u8], k: usize) -> u64
    requires { k + 7 < length s.now }
    ensures { result ≡ key_at s.now k }
{
    u64::from_be_bytes([
        s[k],
        s[k + 1],
        s[k + 2],
        s[k + 3],
        s[k + 4],
        s[k + 5],
        s[k + 6],
        s[k + 7],
    ])
}

// Stores a number as four bytes from place k on, highest first.
pub fn put_number(out: &mut [u8], k: usize, n: u32)
    requires { k + 3 < length out.old }
    ensures { out.new ≡ sets out.old k (four_bytes n) }
{
    out[k..k + 4].copy_from_slice(&n.to_be_bytes());
}

// Stores a number as eight bytes from place k on, highest first.
pub fn put_key(out: &mut [u8], k: usize, a: u64)
    requires { k + 7 < length out.old }
    ensures { out.new ≡ sets out.old k (key_bytes a) }
{
    out[k..k + 8].copy_from_slice(&a.to_be_bytes());
}
