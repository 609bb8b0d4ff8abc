// The calls on one meter of the store and on its allowance (document 02, 9/14).
ghost use Rattle.std.specs.Prelude.{◌≡◌, ◌+◌, ◌*◌, ◌≤◌, ◌<◌, max, length, set};
ghost use Rattle.std.proofs.lemmas.List.Edits.{sets};
ghost use Rattle.answers.specs.Outcome.{leaving};
ghost use Rattle.sessions.specs.StoreFile.{meter_bytes};
ghost use Rattle.sessions.specs.StoreCalls.{emptying, adding, adding_by, hearing_in, issuing, setting_allowance, writing_store, looking_up, allowance_in};
ghost use Rattle.store.specs.Inner.{known_at};

use crate::index::{Index, LIMIT};
use crate::judging::{HEAD, MEMORY};
use crate::meters::METER;
use crate::{judging, meters};
use answers::Refusal;
use frame::Format;
use modes::Mode;
use sessions::Meter;

// Puts a meter at `place` of a memory with `count` meters: in the place of another one, or behind the last. How many
// bytes the store has then.
fn keep(store: &mut [u8], count: usize, place: usize, m: Meter) -> usize
    requires { (count ≤ 64) × ((place < 64) × (1288 ≤ length store.old)) }
    ensures { (result ≡ 8 + 20 * max count (place + 1))
        × (store.new ≡ set (sets store.old (8 + 20 * place) (meter_bytes m)) 7 (max count (place + 1))) }
{
    let held = count.max(place + 1);
    meters::put_meter(store, HEAD + METER * place, m);
    store[7] = held as u8;
    HEAD + METER * held
}

// A store without meters; its allowance is the one that version 1 means. Refusal: 4.
pub fn empty(store: &mut [u8]) -> Result<usize, Refusal>
    ensures { leaving result store.new ≡ emptying store.old }
{
    if store.len() < MEMORY {
        return Err(Refusal::NoRoom);
    }
    store[..HEAD].copy_from_slice(&[2, 4, 0, 0, 64, 0, 1, 0]);
    Ok(HEAD)
}

// What the memory holds of the meter at `place`. Behind the last one stands what is known of a stranger: it starts
// unsure, at number 0; its mode and format are of no meaning.
fn known(store: &[u8], count: usize, place: usize, address: u64) -> Meter
    requires { (count ≤ 64) × (1288 ≤ length store.now) }
    ensures { result ≡ known_at store.now count place address }
{
    if place < count {
        return meters::meter_at(store, HEAD + METER * place);
    }
    Meter {
        address,
        mode: Mode::R,
        format: Format::A,
        number: 0,
        unsure: true,
    }
}

// Adds a meter, or sets mode and format of one that is held. The refusals in their order: 17, 18, 17, 22.
pub fn add(store: &mut [u8], address: u64, mode: Mode, format: Format) -> Result<usize, Refusal>
    ensures { leaving result store.new ≡ adding address mode format store.old }
{
    let mut held = Index::none(store);
    judging::in_memory(&mut held)?;
    let count = held.count;
    let place = held.find(address).unwrap_or(count);
    if place >= LIMIT {
        return Err(Refusal::StoreFull);
    }
    let own = known(store, count, place, address);
    Ok(keep(
        store,
        count,
        place,
        Meter {
            mode,
            format,
            ..own
        },
    ))
}

// A number was heard from the meter: it is sure, and keeps the larger number. The refusals in their order: 17, 18, 17,
// 19.
pub fn hear(store: &mut [u8], address: u64, number: u32) -> Result<usize, Refusal>
    ensures { leaving result store.new ≡ hearing_in address number store.old }
{
    let mut held = Index::none(store);
    judging::in_memory(&mut held)?;
    let count = held.count;
    let place = held.find(address).ok_or(Refusal::NotHeld)?;
    let own = held.at(place);
    let heard = Meter {
        number: own.number.max(number),
        unsure: false,
        ..own
    };
    Ok(keep(store, count, place, heard))
}

// The next number for the meter. The refusals in their order: 17, 18, 17, 19, 20, 21.
pub fn issue(store: &mut [u8], address: u64) -> Result<u32, Refusal>
    ensures { leaving result store.new ≡ issuing address store.old }
{
    let mut held = Index::none(store);
    judging::in_memory(&mut held)?;
    let count = held.count;
    let place = held.find(address).ok_or(Refusal::NotHeld)?;
    let own = held.at(place);
    if own.unsure {
        return Err(Refusal::Unsure);
    }
    let number = own.number.checked_add(1).ok_or(Refusal::NumbersUsedUp)?;
    keep(store, count, place, Meter { number, ..own });
    Ok(number)
}

// What is held of the meter. The refusals in their order: 17, 18, 17, 19.
pub fn look_up(store: &[u8], address: u64) -> Result<Meter, Refusal>
    ensures { result ≡ looking_up address store.now }
{
    let mut held = Index::none(store);
    judging::in_memory(&mut held)?;
    let place = held.find(address).ok_or(Refusal::NotHeld)?;
    Ok(held.at(place))
}

// The position allowance. The refusals in their order: 17, 18, 17.
pub fn allowance(store: &[u8]) -> Result<u32, Refusal>
    ensures { result ≡ allowance_in store.now }
{
    judging::in_memory(&mut Index::none(store))?;
    Ok(address::four_at(store, 2))
}

// Sets the position allowance. The refusals in their order: 17, 18, 17.
pub fn set_allowance(store: &mut [u8], allowance: u32) -> Result<usize, Refusal>
    ensures { leaving result store.new ≡ setting_allowance allowance store.old }
{
    let mut held = Index::none(store);
    judging::in_memory(&mut held)?;
    let count = held.count;
    address::put_number(store, 2, allowance);
    Ok(HEAD + METER * count)
}

// Writes the store as a file of version 2. The refusals in their order: 17, 18, 17, 4.
pub fn write(store: &[u8], out: &mut [u8]) -> Result<usize, Refusal>
    ensures { leaving result out.new ≡ writing_store store.now out.old }
{
    let mut held = Index::none(store);
    judging::in_memory(&mut held)?;
    let size = HEAD + METER * held.count;
    if out.len() < size {
        return Err(Refusal::NoRoom);
    }
    blocks::copy(&store[..size], &mut out[..size]);
    Ok(size)
}

// Adds a meter whose mode and format are named by their numbers in Tables 64 and 65. The refusals in their order: 17,
// 18, 17; 17 where a number is outside its list; 22.
pub fn add_by_number(store: &mut [u8], address: u64, mode: u8, format: u8) -> Result<usize, Refusal>
    ensures { leaving result store.new ≡ adding_by address mode format store.old }
{
    if mode > 5 || format > 1 {
        judging::in_memory(&mut Index::none(store))?;
        return Err(Refusal::BadStore);
    }
    add(
        store,
        address,
        modes::mode_of(mode),
        modes::format_of(format),
    )
}
