// What a caller is told of an answer: its number, and a row of results. Every call that can be refused tells its answer
// here.
ghost use Rattle.std.specs.Prelude.{◌≡◌, ◌<◌, ℕ, List, [], ◌∷◌};
ghost use Rattle.kusikhut.specs.Told.{told, told_answer};

use answers::Refusal;

// An accepted answer that shows itself in a row of W results.
pub(crate) trait Row<const W: usize> {
    ghost shows: { Self → List ℕ };

    fn row(self) -> [u64; W]
        ensures { result ≡ shows self };
}

// The number of an answer. Its row is left in v; that of a refusal has its value at `place` and zeros elsewhere.
pub(crate) fn tell_at<T: Row<W>, const W: usize>(
    answer: Result<T, Refusal>,
    place: usize,
    v: &mut [u64; W],
) -> u8
    requires { place < W }
    ensures { told result v.new ≡ told_answer W (λ r. place) T.shows answer }
{
    match answer {
        Ok(accepted) => {
            *v = accepted.row();
            0
        }
        Err(why) => {
            v.fill(0);
            v[place] = why.value() as u64;
            why.number()
        }
    }
}

// The same, a refusal's value first.
pub(crate) fn tell<T: Row<W>, const W: usize>(answer: Result<T, Refusal>, v: &mut [u64; W]) -> u8
    requires { 0 < W }
    ensures { told result v.new ≡ told_answer W (λ r. 0) T.shows answer }
{
    tell_at(answer, 0, v)
}

// Numbers of four types have an impl each: no `From` leads from `usize` to `u64`, and an impl over `Into<u64>` would
// take in `bool`, whose row is another.

// Bytes written; in how many bytes a proposal differs.
impl Row<1> for usize {
    ghost shows = { λ n. n ∷ [] };

    fn row(self) -> [u64; 1] {
        [self as u64]
    }
}

// A word's value.
impl Row<1> for u8 {
    ghost shows = { λ n. n ∷ [] };

    fn row(self) -> [u64; 1] {
        [u64::from(self)]
    }
}

// A check.
impl Row<1> for u16 {
    ghost shows = { λ n. n ∷ [] };

    fn row(self) -> [u64; 1] {
        [u64::from(self)]
    }
}

// A session number; an allowance.
impl Row<1> for u32 {
    ghost shows = { λ n. n ∷ [] };

    fn row(self) -> [u64; 1] {
        [u64::from(self)]
    }
}
