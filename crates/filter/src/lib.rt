// The meter filter: which contents come from a meter that is listed (document 01, "Meter filter").

#![tactic(auto)]

ghost use Rattle.std.specs.Prelude.{◌≡◌};
ghost use Rattle.std.specs.Str.{bytes_eq};
ghost use Rattle.std.specs.List.{list_any};
ghost use Rattle.address.specs.Names.{name_of};
ghost use Rattle.filter.specs.Listed.{verdict_of};

use answers::Refusal;

// Whether the name is one of the entries. All eight bytes are compared as received (document 02, 2/14).
fn is_listed(name: &[u8], entries: &[[u8; 8]]) -> bool
    ensures { result ≡ list_any (λ e. bytes_eq e name.now) entries.now }
{
    entries.iter().any(|entry| entry.as_slice() == name)
}

// Whether the content comes from a meter that the first `count` entries list: its M and A are bytes 1 to 8. Sixteen
// entries by value and a count beside them are the form that document 01, "Meter filter", asks for.
pub fn wanted(entries: [[u8; 8]; 16], count: usize, content: &[u8]) -> Result<bool, Refusal>
    ensures { result ≡ verdict_of entries count content.now }
{
    if count > 16 {
        return Err(Refusal::OutOfRange);
    }
    if content.len() < 9 {
        return Err(Refusal::BadContent);
    }
    Ok(is_listed(&content[1..9], &entries[..count]))
}
