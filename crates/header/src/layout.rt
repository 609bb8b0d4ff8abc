// The four extended headers, their fields and lengths (EN 13757-4:2019, 13.2, Tables 43 to 47).
ghost use Rattle.std.specs.Prelude.{◌≡◌};
ghost use Rattle.header.specs.Layout.{ci_of, addressed, secured, session_place, header_length};
ghost use Rattle.header.specs.HeaderReads.{header_kind_of};

use address::Name;
use answers::Refusal;

// The four fixed headers, each with its CI byte (Table 43). Secured is the standard's encryption: a session number and
// a payload check.
#[derive(Clone, Copy, Debug, PartialEq, Eq)]
pub enum HeaderKind {
    Plain = 0x8C,
    Secured = 0x8D,
    Addressed = 0x8E,
    AddressedSecured = 0x8F,
}

// PayloadCRC: two bytes as they are sent, not judged. No array, as for `Address`: the theorems speak of every value.
#[derive(Clone, Copy, Debug, PartialEq, Eq)]
pub struct PayloadCheck(pub u8, pub u8);

// What encryption needs: SN and PayloadCRC.
#[derive(Clone, Copy, Debug, PartialEq, Eq)]
pub struct Session {
    pub sn: u32,
    pub check: PayloadCheck,
}

// A header; the receiver is M2 and A2. What its kind lacks is zero where it was read, and is not looked at where it is
// written.
#[derive(Clone, Copy, Debug, PartialEq, Eq)]
pub struct Header {
    pub kind: HeaderKind,
    pub cc: u8,
    pub acc: u8,
    pub receiver: Name,
    pub session: Session,
}

impl HeaderKind {
    // The CI byte of a header of this kind.
    pub fn ci(self) -> u8
        ensures { result ≡ ci_of self }
    {
        self as u8
    }

    pub(crate) fn has_receiver(self) -> bool
        ensures { result ≡ addressed self }
    {
        matches!(self, HeaderKind::Addressed | HeaderKind::AddressedSecured)
    }

    pub(crate) fn has_session(self) -> bool
        ensures { result ≡ secured self }
    {
        matches!(self, HeaderKind::Secured | HeaderKind::AddressedSecured)
    }

    // Where SN starts: behind A2, if there is one.
    pub(crate) fn session_place(self) -> usize
        ensures { result ≡ session_place self }
    {
        if self.has_receiver() { 11 } else { 3 }
    }

    // The bytes of a header, CI among them.
    pub(crate) fn length(self) -> usize
        ensures { result ≡ header_length self }
    {
        let at = self.session_place();
        if self.has_session() { at + 6 } else { at }
    }
}

// The kind that a CI byte stands for.
impl TryFrom<u8> for HeaderKind {
    type Error = Refusal;

    ghost try_from_gives = { λ ci kind. kind ≡ header_kind_of ci };

    fn try_from(ci: u8) -> Result<HeaderKind, Refusal> {
        match ci {
            0x8C => Ok(HeaderKind::Plain),
            0x8D => Ok(HeaderKind::Secured),
            0x8E => Ok(HeaderKind::Addressed),
            0x8F => Ok(HeaderKind::AddressedSecured),
            _ => Err(Refusal::UnknownCi),
        }
    }
}
