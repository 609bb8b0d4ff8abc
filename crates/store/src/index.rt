// The meters of a memory or a file, each found by its address.
ghost use Rattle.std.specs.Prelude.{◌≡◌, true, false, ◌&&◌, [], ℕ, ◌+◌, ◌*◌, ◌≤◌, ◌<◌, length, take, drop};
ghost use Rattle.ground.specs.Bytes.{Bytes};
ghost use Rattle.sessions.specs.StoreFile.{meter_in, meters_in, all_right, unlike};
ghost use Rattle.store.specs.Inner.{place_of, slot_of, FoundAt, MetersFrom, Indexed};

use crate::meters::{self, MARK, METER};
use sessions::Meter;

// The most meters that a store holds.
pub(crate) const LIMIT: usize = 64;

// Slots of the table: a meter's slot is its address by this number.
const SLOTS: usize = 509;

// The `count` meters of `bytes` from `first` on, none of them twice. A slot leads to the last meter in it and a meter's
// link to the one before it in its slot; each is one more than a place, and 0 leads nowhere. No map of std: its memory
// would come from an allocator, and the store's is fixed and lent (a rule of the project). A call makes its index where
// it needs it and lends it to what fills it: to hand it on by value would copy its tables each time (D142).
#[derive(Drop)]
pub(crate) struct Index<'a> {
    pub(crate) bytes: &'a [u8],
    first: usize,
    pub(crate) count: usize,
    slots: [u8; SLOTS],
    links: [u8; LIMIT],
    ghost octets: { Bytes bytes.now },
    ghost early: { first ≤ 8 },
    ghost meters: { MetersFrom first count bytes.now },
    ghost indexed: { Indexed slots links bytes.now first count },
}

fn slot_of(address: u64) -> usize
    ensures { result ≡ slot_of address }
{
    (address % SLOTS as u64) as usize
}

impl<'a> Index<'a> {
    // No meter yet.
    pub(crate) fn none(bytes: &'a [u8]) -> Index<'a>
        ensures { (result.bytes.now ≡ bytes.now) × (result.count ≡ 0) }
    {
        Index {
            bytes,
            first: 0,
            count: 0,
            slots: [0; SLOTS],
            links: [0; LIMIT],
        }
    }

    // Takes in the `count` meters from `first` on, if each of them is one and none stands twice; else only those before
    // the first that is wrong.
    pub(crate) fn fill(&mut self, first: usize, count: usize) -> bool
        requires { (self.old.count ≡ 0) × ((first ≤ 8) × ((count ≤ 64)
            × (first + 20 * count ≤ length self.old.bytes.now))) }
        ensures same { self.new.bytes.now ≡ self.old.bytes.now }
        ensures judged { result ≡ (all_right count (drop first self.old.bytes.now)
            && unlike [] (meters_in count (drop first self.old.bytes.now))) }
        ensures filled { result ≡ true → (self.new.first ≡ first) × (self.new.count ≡ count) }
    {
        self.first = first;
        for _ in 0..count {
            if !self.take_next() {
                return false;
            }
        }
        true
    }

    // Takes in the meter behind the last one; not if its bytes are none, or it stands there twice. Only meters in the
    // same slot are compared: the cost grows with the meters and not with their pairs.
    fn take_next(&mut self) -> bool
        requires { (self.old.count < 64) × (self.old.first + 20 * (self.old.count + 1) ≤ length self.old.bytes.now) }
        ensures same { (self.new.bytes.now ≡ self.old.bytes.now) × (self.new.first ≡ self.old.first) }
        ensures taken { result ≡ true → self.new.count ≡ self.old.count + 1 }
        ensures refused { result ≡ false → (n : ℕ) → self.old.count < n →
            (all_right n (drop self.old.first self.old.bytes.now)
            && unlike [] (meters_in n (drop self.old.first self.old.bytes.now))) ≡ false }
    {
        let i = self.count;
        let at = self.first + METER * i;
        if !meters::right_meter(self.bytes, at) {
            return false;
        }
        let address = address::key_at(self.bytes, at + 1);
        if self.find(address).is_some() {
            return false;
        }
        let slot = slot_of(address);
        self.links[i] = self.slots[slot];
        self.slots[slot] = (i + 1) as u8;
        self.count = i + 1;
        true
    }

    // The place of the meter `address`, if it is one of them. No meter stands twice, so the place where it is found is
    // the only one. The walk goes from a meter to the one before it in its slot, so its step isn't 1.
    pub(crate) fn find(&self, address: u64) -> Option<usize>
        ensures { FoundAt result self.now.count
            (place_of address (meters_in self.now.count (drop self.now.first self.now.bytes.now))) }
    {
        let mut next = self.slots[slot_of(address)] as usize;
        while next != 0 {
            let place = next - 1;
            if address::key_at(self.bytes, self.first + METER * place + 1) == address {
                return Some(place);
            }
            next = self.links[place] as usize;
        }
        None
    }

    // The meter at a place.
    pub(crate) fn at(&self, place: usize) -> Meter
        requires { place < self.now.count }
        ensures { result ≡ meter_in (drop (self.now.first + 20 * place) self.now.bytes.now) }
    {
        meters::meter_at(self.bytes, self.first + METER * place)
    }

    // The bytes of the meter at a place, but for its mark.
    pub(crate) fn unmarked(&self, place: usize) -> &[u8]
        requires { place < self.now.count }
        ensures { (result.now ≡ take 19 (drop (self.now.first + 20 * place) self.now.bytes.now))
            × (length result.now ≡ 19) }
    {
        let at = self.first + METER * place;
        &self.bytes[at..at + MARK]
    }
}
