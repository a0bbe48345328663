// Why something was refused (rules 2 of docs/RULES.md).
#![tactic(auto)]

ghost use Rattle.std.specs.Prelude.{◌≡◌};
ghost use Rattle.base_answers.specs.Meant.{number_of};

#[derive(Clone, Copy)]
pub enum Refusal {
    IncorrectLength,
    MalformedCookiePlaceholder,
    MalformedNtsExtensionFields,
    InvalidDraftIdentification,
    DecryptError,
    HeaderPastEnd,
    PacketTooLong,
    TooManyFields,
    NoResult,
    MalformedResult,
    InvalidVersion,
    MalformedMode,
    MalformedTimescale,
    InvalidFlags,
    FieldTooLong,
    NoRoom,
    NoCipher,
    CannotBeMade,
}

// The number of a refusal.
pub fn number(refusal: Refusal) -> u8
    ensures { result ≡ number_of refusal }
{
    match refusal {
        Refusal::IncorrectLength => 1,
        Refusal::MalformedCookiePlaceholder => 2,
        Refusal::MalformedNtsExtensionFields => 3,
        Refusal::InvalidDraftIdentification => 4,
        Refusal::DecryptError => 5,
        Refusal::HeaderPastEnd => 6,
        Refusal::PacketTooLong => 7,
        Refusal::TooManyFields => 8,
        Refusal::NoResult => 9,
        Refusal::MalformedResult => 10,
        Refusal::InvalidVersion => 11,
        Refusal::MalformedMode => 12,
        Refusal::MalformedTimescale => 13,
        Refusal::InvalidFlags => 14,
        Refusal::FieldTooLong => 15,
        Refusal::NoRoom => 16,
        Refusal::NoCipher => 17,
        Refusal::CannotBeMade => 18,
    }
}
