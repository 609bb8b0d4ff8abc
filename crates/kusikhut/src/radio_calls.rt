// Frames as chips: receiving and sending, modes T and C first, then Manchester.
ghost use Rattle.std.specs.Prelude.{◌≡◌, [], ◌∷◌, ◌<◌};
ghost use Rattle.answers.specs.Refusals.{number_of};
ghost use Rattle.sync.specs.declared.Kind.TheVariants.{TWithA, CWithA, CWithB, ManchesterWithA};
ghost use Rattle.kusikhut.specs.Told.{told, shown, kind_number, refusal_place, told_reception};
ghost use Rattle.kusikhut.specs.Calls.{call_receive, call_manchester, call_send};

use crate::telling::{Row, tell, tell_at};
use answers::Refusal;
use radio::Reception;
use sync::Kind;

// Where the row shows a refusal's value.
fn refusal_place(why: Refusal) -> usize
    ensures { (result ≡ refusal_place (number_of why)) × (result < 7) }
{
    match why {
        Refusal::WrongCheck(_) => 5,
        Refusal::BadWord(_) => 6,
        Refusal::UnknownTail(_) => 1,
        _ => 2,
    }
}

// The kind by its number in the header file, which is its place in `Kind`.
impl Row<7> for Reception {
    ghost shows = { λ a. kind_number a.kind ∷ a.place ∷ a.tried ∷ a.size ∷ a.n ∷ 0 ∷ 0 ∷ [] };

    fn row(self) -> [u64; 7] {
        [
            self.kind as u64,
            self.place as u64,
            self.tried as u64,
            self.size as u64,
            self.n as u64,
            0,
            0,
        ]
    }
}

fn tell_reception(answer: Result<Reception, Refusal>, v: &mut [u64; 7]) -> u8
    ensures { told result v.new ≡ told_reception answer }
{
    let place = match answer {
        Ok(_) => 0,
        Err(why) => refusal_place(why),
    };
    tell_at(answer, place, v)
}

pub fn kusikhut_receive(s: &[u8], k: usize, allowance: usize, d: &mut [u8], v: &mut [u64; 7]) -> u8
    ensures { shown result v.new d.new ≡ call_receive s.now k allowance d.old }
{
    tell_reception(radio::receive(s, k, allowance, d), v)
}

pub fn kusikhut_send_t_a(s: &[u8], d: &mut [u8], v: &mut [u64; 1]) -> u8
    ensures { shown result v.new d.new ≡ call_send TWithA s.now d.old }
{
    tell(radio::send(Kind::TWithA, s, d), v)
}

pub fn kusikhut_send_c_a(s: &[u8], d: &mut [u8], v: &mut [u64; 1]) -> u8
    ensures { shown result v.new d.new ≡ call_send CWithA s.now d.old }
{
    tell(radio::send(Kind::CWithA, s, d), v)
}

pub fn kusikhut_send_c_b(s: &[u8], d: &mut [u8], v: &mut [u64; 1]) -> u8
    ensures { shown result v.new d.new ≡ call_send CWithB s.now d.old }
{
    tell(radio::send(Kind::CWithB, s, d), v)
}

pub fn kusikhut_receive_manchester(s: &[u8], k: usize, d: &mut [u8], v: &mut [u64; 7]) -> u8
    ensures { shown result v.new d.new ≡ call_manchester s.now k d.old }
{
    tell_reception(radio::receive_manchester(s, k, d), v)
}

pub fn kusikhut_send_manchester_a(s: &[u8], d: &mut [u8], v: &mut [u64; 1]) -> u8
    ensures { shown result v.new d.new ≡ call_send ManchesterWithA s.now d.old }
{
    tell(radio::send(Kind::ManchesterWithA, s, d), v)
}
