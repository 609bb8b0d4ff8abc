// Frames as bytes, in formats A and B.
ghost use Rattle.std.specs.Prelude.{◌≡◌, [], ◌∷◌};
ghost use Rattle.frame.specs.Formats.{size_for};
ghost use Rattle.frame.specs.declared.Format.{Format};
ghost use Rattle.kusikhut.specs.Told.{told, shown, told_size};
ghost use Rattle.kusikhut.specs.Calls.{call_read, call_write, call_change};

use crate::telling::{Row, tell, tell_at};
use frame::{Format, Frame};

// Its size alone.
impl Row<1> for Frame {
    ghost shows = { λ f. f.size ∷ [] };

    fn row(self) -> [u64; 1] {
        [self.size as u64]
    }
}

// Its size and that of its content; the first wrong block is a refusal's.
impl Row<3> for Frame {
    ghost shows = { λ f. f.size ∷ f.n ∷ 0 ∷ [] };

    fn row(self) -> [u64; 3] {
        [self.size as u64, self.n as u64, 0]
    }
}

// The place of the first wrong block in that row.
const WRONG_BLOCK: usize = 2;

pub fn kusikhut_frame_size_a(l: u8, v: &mut [u64; 1]) -> u8
    ensures { told result v.new ≡ told_size (size_for Format.A l) }
{
    tell(Format::A.frame_size(l), v)
}

pub fn kusikhut_frame_size_b(l: u8, v: &mut [u64; 1]) -> u8
    ensures { told result v.new ≡ told_size (size_for Format.B l) }
{
    tell(Format::B.frame_size(l), v)
}

pub fn kusikhut_read_a(s: &[u8], d: &mut [u8], v: &mut [u64; 3]) -> u8
    ensures { shown result v.new d.new ≡ call_read Format.A s.now d.old }
{
    tell_at(frame::read(Format::A, s, d), WRONG_BLOCK, v)
}

pub fn kusikhut_read_b(s: &[u8], d: &mut [u8], v: &mut [u64; 3]) -> u8
    ensures { shown result v.new d.new ≡ call_read Format.B s.now d.old }
{
    tell_at(frame::read(Format::B, s, d), WRONG_BLOCK, v)
}

pub fn kusikhut_change_a(d: &mut [u8], k: usize, b: u8, v: &mut [u64; 3]) -> u8
    ensures { shown result v.new d.new ≡ call_change Format.A d.old k b }
{
    tell_at(frame::change(Format::A, d, k, b), WRONG_BLOCK, v)
}

pub fn kusikhut_change_b(d: &mut [u8], k: usize, b: u8, v: &mut [u64; 3]) -> u8
    ensures { shown result v.new d.new ≡ call_change Format.B d.old k b }
{
    tell_at(frame::change(Format::B, d, k, b), WRONG_BLOCK, v)
}

pub fn kusikhut_write_a(s: &[u8], d: &mut [u8], v: &mut [u64; 1]) -> u8
    ensures { shown result v.new d.new ≡ call_write Format.A s.now d.old }
{
    tell(frame::write(Format::A, s, d), v)
}

pub fn kusikhut_write_b(s: &[u8], d: &mut [u8], v: &mut [u64; 1]) -> u8
    ensures { shown result v.new d.new ≡ call_write Format.B s.now d.old }
{
    tell(frame::write(Format::B, s, d), v)
}
