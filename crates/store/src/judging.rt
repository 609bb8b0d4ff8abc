// Whether bytes are a store: memory that one is kept in, or a file (document 02, 9/14).
ghost use Rattle.std.specs.Prelude.{◌≡◌, ◌&&◌, ◌+◌, ◌≤◌, ◌<◌, length, get_or, MatchResult, IfOk};
ghost use Rattle.sessions.specs.StoreFile.{right_body, whole, memory_of, file_of};
ghost use Rattle.store.specs.Inner.{first_of};
ghost use Rattle.store.specs.InnerOpened.{BodyAt, Opened};

use crate::index::{Index, LIMIT};
use crate::meters::METER;
use answers::Refusal;

// Bytes of a store before its meters: the version, the allowance and the count, each behind its length.
pub(crate) const HEAD: usize = 8;

// Bytes of memory that a store is kept in: as many as the largest has.
pub(crate) const MEMORY: usize = HEAD + METER * LIMIT;

// Fills the index with the meters behind the count at place k + 1, if it is one, at most 64, and right meters follow
// it. Refusal: 17.
fn right_body(index: &mut Index, k: usize) -> Result<(), Refusal>
    requires { (index.old.count ≡ 0) × ((k ≤ 6) × (k + 2 ≤ length index.old.bytes.now)) }
    ensures { BodyAt index.old.bytes.now k (right_body k index.old.bytes.now) result index.new }
{
    let s = index.bytes;
    let count = s[k + 1] as usize;
    if s[k] != 1 || count > LIMIT || s.len() < k + 2 + METER * count {
        return Err(Refusal::BadStore);
    }
    if !index.fill(k + 2, count) {
        return Err(Refusal::BadStore);
    }
    Ok(())
}

// Fills the index with the meters that its bytes, a memory, hold. The refusals in their order: 17 if it has no byte,
// 18, 17.
pub(crate) fn in_memory(index: &mut Index) -> Result<(), Refusal>
    requires { index.old.count ≡ 0 }
    ensures held { MatchResult result
        (λ u. Opened (memory_of index.old.bytes.now) index.old.bytes.now 8 index.new)
        (λ why. memory_of index.old.bytes.now ≡ Err why) }
    ensures room { IfOk result (λ u. 1288 ≤ length index.old.bytes.now) }
{
    let s = index.bytes;
    if s.is_empty() {
        return Err(Refusal::BadStore);
    }
    if s[0] != 2 {
        return Err(Refusal::UnknownVersion);
    }
    if s.len() < MEMORY || s[1] != 4 {
        return Err(Refusal::BadStore);
    }
    right_body(index, 6)
}

// The same as `right_body`, if besides the bytes end with them. Refusal: 17.
fn whole_body(index: &mut Index, k: usize) -> Result<(), Refusal>
    requires { (index.old.count ≡ 0) × ((k ≤ 6) × (k + 2 ≤ length index.old.bytes.now)) }
    ensures { BodyAt index.old.bytes.now k (right_body k index.old.bytes.now && whole k index.old.bytes.now)
        result index.new }
{
    right_body(index, k)?;
    if index.bytes.len() != k + 2 + METER * index.count {
        return Err(Refusal::BadStore);
    }
    Ok(())
}

// Fills the index with the meters that its bytes, a file, hold. The refusals in their order: 17 if it is empty, 18, 17.
pub(crate) fn in_file(index: &mut Index) -> Result<(), Refusal>
    requires { index.old.count ≡ 0 }
    ensures { MatchResult result
        (λ u. Opened (file_of index.old.bytes.now) index.old.bytes.now (first_of index.old.bytes.now) index.new)
        (λ why. file_of index.old.bytes.now ≡ Err why) }
{
    if index.bytes.is_empty() {
        return Err(Refusal::BadStore);
    }
    match index.bytes[0] {
        1 => in_version_one(index),
        2 => in_version_two(index),
        _ => Err(Refusal::UnknownVersion),
    }
}

// A file of version 2: the allowance, then the count at place 7.
fn in_version_two(index: &mut Index) -> Result<(), Refusal>
    requires { (index.old.count ≡ 0) × ((0 < length index.old.bytes.now) × (get_or index.old.bytes.now 0 0 ≡ 2)) }
    ensures { MatchResult result (λ u. Opened (file_of index.old.bytes.now) index.old.bytes.now 8 index.new)
        (λ why. file_of index.old.bytes.now ≡ Err why) }
{
    if index.bytes.len() < 8 || index.bytes[1] != 4 {
        return Err(Refusal::BadStore);
    }
    whole_body(index, 6)
}

// A file of version 1: the count at place 2.
fn in_version_one(index: &mut Index) -> Result<(), Refusal>
    requires { (index.old.count ≡ 0) × ((0 < length index.old.bytes.now) × (get_or index.old.bytes.now 0 0 ≡ 1)) }
    ensures { MatchResult result (λ u. Opened (file_of index.old.bytes.now) index.old.bytes.now 3 index.new)
        (λ why. file_of index.old.bytes.now ≡ Err why) }
{
    if index.bytes.len() < 3 {
        return Err(Refusal::BadStore);
    }
    whole_body(index, 1)
}
