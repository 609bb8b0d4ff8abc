// The modes and the frame formats by the numbers that Tables 64 and 65 give them (EN 13757-4:2019, 14.2).
#![tactic(auto)]

ghost use Rattle.std.specs.Prelude.{◌≡◌};
ghost use Rattle.modes.specs.Tables.{mode_number, mode_of, format_number, format_of};

use frame::Format;

// Each table has a function for either way. Not `From` and `TryFrom`: `Format` is another crate's, and `mode_of` and
// `format_of` refuse no number.

// The modes of Table 64, with its numbers.
#[derive(Clone, Copy, Debug, PartialEq, Eq)]
pub enum Mode {
    R = 0,
    S = 1,
    T = 2,
    C = 3,
    N = 4,
    F = 5,
}

pub fn mode_number(mode: Mode) -> u8
    ensures { result ≡ mode_number mode }
{
    mode as u8
}

// The mode of a number; whoever must refuse the numbers above 5 asks before.
pub fn mode_of(number: u8) -> Mode
    ensures { result ≡ mode_of number }
{
    match number {
        0 => Mode::R,
        1 => Mode::S,
        2 => Mode::T,
        3 => Mode::C,
        4 => Mode::N,
        _ => Mode::F,
    }
}

pub fn format_number(format: Format) -> u8
    ensures { result ≡ format_number format }
{
    format as u8
}

// The format of a number; whoever must refuse the numbers above 1 asks before.
pub fn format_of(number: u8) -> Format
    ensures { result ≡ format_of number }
{
    match number {
        0 => Format::A,
        _ => Format::B,
    }
}
