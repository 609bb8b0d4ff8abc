// What M says, as a caller in C is told it (document 02, 2/14): the letters and hard or soft, each exactly in its case,
// whatever the other is; and by the bytes as they were received, M of a content and M2 of a header.
ghost use Rattle.std.specs.Prelude.{true, [], ◌∷◌, ◌↔◌, ◌≡◌, ℕ, ◌≤◌, ◌<◌, length, get_or, take, replicate, Ok};
ghost use Rattle.header.specs.declared.layout.Header.{Header};
ghost use Rattle.header.specs.Layout.{addressed};
ghost use Rattle.header.specs.HeaderReads.{header_reading_of};
ghost use Rattle.demands.specs.Cases.{Spells};

use kusikhut::kusikhut_maker;

fn letters(m: u16, results: &mut [u64; 5]) -> u8
    ensures { (result ≡ 0) × (((x y z : ℕ) → (take 4 results.new ≡ 1 ∷ x ∷ y ∷ z ∷ []) ↔ Spells m x y z)
        × ((take 4 results.new ≡ replicate 4 0) ↔ ((x y z : ℕ) → Spells m x y z → ⊥))) }
{
    kusikhut_maker(m, results)
}

fn hard_or_soft(m: u16, results: &mut [u64; 5]) -> u8
    ensures { ((get_or results.new 4 0 ≡ 0) ↔ (m < 32768))
        × ((get_or results.new 4 0 ≡ 1) ↔ (32768 ≤ m)) }
{
    kusikhut_maker(m, results)
}

fn of_a_content(content: &[u8], results: &mut [u64; 5]) -> u8
    requires { 2 < length content.now }
    ensures { (get_or results.new 4 0 ≡ 1) ↔ (128 ≤ get_or content.now 2 0) }
{
    let m = address::two_at(content, 1);
    kusikhut_maker(m, results)
}

fn of_a_header(body: &[u8], results: &mut [u64; 5]) -> u8
    ensures { (h : Header) (n : ℕ) → header_reading_of body.now ≡ Ok (h, n)
        → addressed h.kind ≡ true
        → (get_or results.new 4 0 ≡ 1) ↔ (128 ≤ get_or body.now 4 0) }
{
    match header::read(body) {
        Ok((h, _)) => kusikhut_maker(h.receiver.m, results),
        Err(why) => why.number(),
    }
}
