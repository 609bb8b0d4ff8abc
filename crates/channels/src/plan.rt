// The mode N channel plan: rows and centres (EN 13757-4:2019, 10.2, Table 21; document 01, "Mode N channels").
ghost use Rattle.std.specs.Prelude.{◌≡◌, ◌<◌, ◌*◌};
ghost use Rattle.channels.specs.Table21.{channels_of, quarters_of};
ghost use Rattle.channels.specs.Inner.{entry_as_floats};
ghost use Rattle.channels.specs.Plan.{float, row_of, centre_of};

use crate::table21::TABLE;

// A row of Table 21, in kilohertz: the first centre, the channel spacing, the frequency tolerance.
#[derive(Clone, Copy, Debug, PartialEq)]
pub struct Row {
    pub centre: f64,
    pub spacing: f64,
    pub tolerance: f64,
}

// The line of an index; zeros where there is none.
fn entry_at(index: usize) -> (f64, f64, f64, usize)
    ensures { result ≡ entry_as_floats index }
{
    if index < 14 { TABLE[index] } else { TABLE[0] }
}

// The row of an index; three zeros where there is none.
pub fn row_at(index: usize) -> Row
    ensures { result ≡ row_of index }
{
    let (centre, spacing, tolerance, _) = entry_at(index);
    Row {
        centre,
        spacing,
        tolerance,
    }
}

// How many channels an index has.
pub fn channels_of(index: usize) -> usize
    ensures { result ≡ channels_of index }
{
    let (_, _, _, channels) = entry_at(index);
    channels
}

// The centre of a channel that there is. Every sum here is exact: nothing is rounded.
fn centre_in(index: usize, channel: usize) -> f64
    requires { channel < channels_of index }
    ensures { result ≡ float (quarters_of index channel) }
{
    let row = row_at(index);
    row.centre + row.spacing * (channel as f64)
}

// The same in hertz: a whole number, since every centre is a whole number of quarters of a kilohertz.
pub(crate) fn hertz_in(index: usize, channel: usize) -> u64
    requires { channel < channels_of index }
    ensures { result ≡ 250 * quarters_of index channel }
{
    (centre_in(index, channel) * 1000.0) as u64
}

// The centre of a channel, in kilohertz and exact to a quarter of one, or that there is no such channel.
pub fn centre_of(index: usize, channel: usize) -> Option<f64>
    ensures { result ≡ centre_of index channel }
{
    if channel < channels_of(index) {
        Some(centre_in(index, channel))
    } else {
        None
    }
}
