// A repeater: it changes two bytes of a frame, one after the other (demand 3). Whatever frame reading accepts, and
// whether a change is refused or not, the buffer then holds what writing the changed content afresh would leave in it.
ghost use Rattle.std.specs.Prelude.{List, [], ◌∷◌, ◌≡◌, ℕ, take, false, Ok};
ghost use Rattle.answers.specs.Outcome.{leaving};
ghost use Rattle.frame.specs.Formats.{sizes};
ghost use Rattle.frame.specs.Reads.{reading_of};
ghost use Rattle.frame.specs.Writes.{writing_of};
ghost use Rattle.frame.specs.Changes.{Edit, edited};
ghost use Rattle.ground.specs.Bytes.{Bytes};
ghost use Rattle.sessions.specs.StoreCalls.{issuing};

use answers::Refusal;
use frame::{Format, Frame};

fn changing_twice(
    f: Format,
    s: &mut [u8],
    first: usize,
    a: u8,
    second: usize,
    b: u8,
) -> Result<Frame, Refusal>
    ensures { (d : List ℕ) (z n : ℕ) → (reading_of f s.old d).answer ≡ Ok (sizes z n)
        → let changed = edited (record { place = first; byte = a } ∷ record { place = second; byte = b } ∷ [])
        (take n (reading_of f s.old d).memory) in
        leaving (Ok z) s.new ≡ writing_of f changed s.old }
{
    let _ = frame::change(f, s, first, a);
    frame::change(f, s, second, b)
}

// A watchman: a number is issued for a meter, a file is restored, whatever that is, and another number is issued.
// Whether the second is not above the first: it never is (document 02, 9/14).
fn turned_back(s: &mut [u8], a: u64, file: &[u8]) -> bool
    ensures { result ≡ false }
{
    match store::issue(s, a) {
        Err(_) => false,
        Ok(first) => not_above(s, a, file, first),
    }
}

// The second half of it.
fn not_above(s: &mut [u8], a: u64, file: &[u8], first: u32) -> bool
    requires { (before : List ℕ) × (Bytes before × (leaving (Ok first) s.old ≡ issuing a before)) }
    ensures { result ≡ false }
{
    let _ = store::restore(s, file);
    match store::issue(s, a) {
        Err(_) => false,
        Ok(second) => second <= first,
    }
}
