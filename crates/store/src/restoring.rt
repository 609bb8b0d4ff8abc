// A file brought into the store (document 02, 9/14): all of it or nothing.
ghost use Rattle.std.specs.Prelude.{◌≡◌, ◌≤◌, ◌<◌, length, get_or};
ghost use Rattle.answers.specs.Outcome.{leaving};
ghost use Rattle.sessions.specs.StoreCalls.{restoring};
ghost use Rattle.store.specs.Inner.{Planned, allowance_of, restored_to, placed_in, merging};

use crate::index::{Index, LIMIT};
use crate::judging::HEAD;
use crate::meters::METER;
use crate::{judging, meters};
use answers::Refusal;
use sessions::Meter;

// Restores a file. The refusals in their order: the memory's 17, 18, 17; the file's 17, 18, 17; 22.
pub fn restore(store: &mut [u8], file: &[u8]) -> Result<usize, Refusal>
    ensures { leaving result store.new ≡ restoring file.now store.old }
{
    let mut held = Index::none(store);
    judging::in_memory(&mut held)?;
    let mut theirs = Index::none(file);
    judging::in_file(&mut theirs)?;
    let count = held.count;
    let (places, total) = places_in(&held, &theirs);
    if total > LIMIT {
        return Err(Refusal::StoreFull);
    }
    merge_all(store, count, &theirs, &places);
    address::put_number(store, 2, allowance_of(file));
    store[7] = total as u8;
    Ok(HEAD + METER * total)
}

// The allowance of a file; version 1 means 16,384.
fn allowance_of(file: &[u8]) -> u32
    requires { (0 < length file.now) × (get_or file.now 0 0 ≡ 2 → 6 ≤ length file.now) }
    ensures { result ≡ allowance_of file.now }
{
    match file[0] {
        2 => address::four_at(file, 2),
        _ => 16384,
    }
}

// Where each of a file's meters is to stand: in its own place, or behind the last. How many there are then.
fn places_in(held: &Index, theirs: &Index) -> ([u8; LIMIT], usize)
    requires { held.now.first ≡ 8 }
    ensures { (result.1
        ≡ length (restored_to held.now.bytes.now held.now.count theirs.now.bytes.now theirs.now.first theirs.now.count))
        × placed_in result.0 held.now.bytes.now held.now.count theirs.now.bytes.now theirs.now.first theirs.now.count }
{
    let mut places = [0; LIMIT];
    let mut total = held.count;
    for i in 0..theirs.count {
        match held.find(theirs.at(i).address) {
            Some(place) => places[i] = place as u8,
            None => {
                places[i] = total as u8;
                total += 1;
            }
        }
    }
    (places, total)
}

// Brings a file's meters to their places in a memory with `count` meters. One that was held keeps its own mark and the
// larger number, all else is the file's. Another one comes unsure, its other bytes as they stand.
fn merge_all(store: &mut [u8], count: usize, theirs: &Index, places: &[u8; LIMIT])
    requires { Planned store.old count theirs.now.bytes.now theirs.now.first theirs.now.count places.now }
    ensures { store.new ≡ merging store.old
        (restored_to store.old count theirs.now.bytes.now theirs.now.first theirs.now.count) }
{
    for i in 0..theirs.count {
        let place = places[i] as usize;
        let k = HEAD + METER * place;
        if place < count {
            let own = meters::meter_at(store, k);
            let m = theirs.at(i);
            let merged = Meter {
                number: own.number.max(m.number),
                unsure: own.unsure,
                ..m
            };
            meters::put_meter(store, k, merged);
        } else {
            meters::put_unsure(store, k, theirs.unmarked(i));
        }
    }
}
