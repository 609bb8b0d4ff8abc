// The list of a band (document 01, "Mode N channels"; the column of sub-bands of EN 13757-4:2019, Table 21).
ghost use Rattle.std.specs.Prelude.{◌≡◌, length};
ghost use Rattle.channels.specs.Listing.{letter_of, band_of, rows_of, lines_of, line_at};

use crate::plan::{channels_of, hertz_in};

#[derive(Clone, Copy, Debug, PartialEq, Eq)]
pub enum Band {
    A,
    B,
    C,
    D,
}

// The indices of a band: the first, and how many. No range, since `band_rows` of demands/specs/Demands says both.
#[derive(Clone, Copy, Debug, PartialEq, Eq)]
pub struct Rows {
    pub first: usize,
    pub count: usize,
}

// A line of a band's list; the centre in hertz.
#[derive(Clone, Copy, Debug, PartialEq, Eq)]
pub struct Line {
    pub index: usize,
    pub channel: usize,
    pub hertz: u64,
}

// The band that a letter names.
fn letter_of(x: u8) -> Option<Band>
    ensures { result ≡ letter_of x }
{
    match x {
        b'A' => Some(Band::A),
        b'B' => Some(Band::B),
        b'C' => Some(Band::C),
        b'D' => Some(Band::D),
        _ => None,
    }
}

// The band that an input names: one capital letter, with at most one line feed after it.
pub fn band_of(input: &[u8]) -> Option<Band>
    ensures { result ≡ band_of input.now }
{
    match input {
        [x] => letter_of(*x),
        [x, b'\n'] => letter_of(*x),
        _ => None,
    }
}

// The indices of a band, as Table 21 groups them.
pub fn rows_of(band: Option<Band>) -> Rows
    ensures { result ≡ rows_of band }
{
    match band {
        Some(Band::A) => Rows { first: 1, count: 4 },
        Some(Band::B) => Rows { first: 5, count: 2 },
        Some(Band::C) => Rows { first: 7, count: 3 },
        Some(Band::D) => Rows {
            first: 10,
            count: 4,
        },
        None => Rows { first: 0, count: 0 },
    }
}

// How many lines a band's list has.
pub fn lines_of(band: Option<Band>) -> usize
    ensures { result ≡ length (lines_of band) }
{
    match band {
        Some(Band::A) => 19,
        Some(Band::B) => 2,
        Some(Band::C) => 24,
        Some(Band::D) => 58,
        None => 0,
    }
}

// Line k of a band's list, from 0.
pub fn line_at(band: Option<Band>, k: usize) -> Option<Line>
    ensures { result ≡ line_at band k }
{
    let rows = rows_of(band);
    // the band's indices one after the other; `channel` counts from the first channel of `index`
    let mut channel = k;
    for index in rows.first..rows.first + rows.count {
        let channels = channels_of(index);
        if channel < channels {
            let hertz = hertz_in(index, channel);
            return Some(Line {
                index,
                channel,
                hertz,
            });
        }
        channel -= channels;
    }
    None
}
