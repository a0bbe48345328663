// The table of types (EF ExtensionFieldTypeId; rule 5.1).
#![tactic(auto)]

ghost use Rattle.std.specs.Prelude.{◌≡◌};
ghost use Rattle.field_kinds.specs.Meant.{kind_of, known_in};

use base_version::Version;

// What a field is read as. A blank record is `Unknown`.
#[derive(Clone, Copy, PartialEq, Eq)]
pub enum Kind {
    Unknown,
    UniqueIdentifier,
    NtsCookie,
    NtsCookiePlaceholder,
    // A sealed field.
    NtsEncryptedField,
    // The marker that stands in a field list for a sealed field that was not opened.
    InvalidNtsEncryptedField,
    DraftIdentification,
    ReferenceIdRequest,
    ReferenceIdResponse,
}

#[derive(Clone, Copy)]
struct Row {
    type_id: u16,
    kind: Kind,
    only_v5: bool,
}

// The type numbers.
pub const UNIQUE_IDENTIFIER: u16 = 0x0104;

pub const NTS_COOKIE: u16 = 0x0204;

pub const NTS_COOKIE_PLACEHOLDER: u16 = 0x0304;

pub const NTS_ENCRYPTED_FIELD: u16 = 0x0404;

pub const PADDING: u16 = 0xF501;

pub const REFERENCE_ID_REQUEST: u16 = 0xF503;

pub const REFERENCE_ID_RESPONSE: u16 = 0xF504;

pub const DRAFT_IDENTIFICATION: u16 = 0xF5FF;

// Padding has no row: it is read as Unknown.
const ROWS: [Row; 7] = [
    Row {
        type_id: UNIQUE_IDENTIFIER,
        kind: Kind::UniqueIdentifier,
        only_v5: false,
    },
    Row {
        type_id: NTS_COOKIE,
        kind: Kind::NtsCookie,
        only_v5: false,
    },
    Row {
        type_id: NTS_COOKIE_PLACEHOLDER,
        kind: Kind::NtsCookiePlaceholder,
        only_v5: false,
    },
    Row {
        type_id: NTS_ENCRYPTED_FIELD,
        kind: Kind::NtsEncryptedField,
        only_v5: false,
    },
    Row {
        type_id: DRAFT_IDENTIFICATION,
        kind: Kind::DraftIdentification,
        only_v5: true,
    },
    Row {
        type_id: REFERENCE_ID_REQUEST,
        kind: Kind::ReferenceIdRequest,
        only_v5: true,
    },
    Row {
        type_id: REFERENCE_ID_RESPONSE,
        kind: Kind::ReferenceIdResponse,
        only_v5: true,
    },
];

// Whether a version has a row's kind.
fn known(only_v5: bool, version: Version) -> bool
    ensures { result ≡ known_in version only_v5 }
{
    match version {
        Version::V4 => !only_v5,
        Version::V5 => true,
    }
}

// The kind that a type number is read as.
pub fn from_type_id(type_id: u16, version: Version) -> Kind
    ensures { result ≡ kind_of type_id version }
{
    // By value: the compiler then compares with constants. Rows behind a reference it reads from memory.
    for row in ROWS {
        if row.type_id == type_id {
            if known(row.only_v5, version) {
                return row.kind;
            }
            return Kind::Unknown;
        }
    }
    Kind::Unknown
}
