// What things of the libraries are called in a line.
use field_kinds::Kind;
use header_codes::{NtpLeapIndicator, NtpMode, NtpTimescale};
use read_records::Trust;

pub(crate) fn kind(kind: Kind) -> &'static str {
    match kind {
        Kind::Unknown => "Unknown",
        Kind::UniqueIdentifier => "UniqueIdentifier",
        Kind::NtsCookie => "NtsCookie",
        Kind::NtsCookiePlaceholder => "NtsCookiePlaceholder",
        Kind::NtsEncryptedField => "NtsEncryptedField",
        Kind::InvalidNtsEncryptedField => "InvalidNtsEncryptedField",
        Kind::DraftIdentification => "DraftIdentification",
        Kind::ReferenceIdRequest => "ReferenceIdRequest",
        Kind::ReferenceIdResponse => "ReferenceIdResponse",
    }
}

pub(crate) fn trust(trust: Trust) -> &'static str {
    match trust {
        Trust::Untrusted => "untrusted",
        Trust::Authenticated => "authenticated",
        Trust::Encrypted => "encrypted",
    }
}

pub(crate) fn leap(leap: NtpLeapIndicator) -> &'static str {
    match leap {
        NtpLeapIndicator::NoWarning => "no warning",
        NtpLeapIndicator::Leap61 => "the last minute of the day has 61 seconds",
        NtpLeapIndicator::Leap59 => "the last minute of the day has 59 seconds",
        NtpLeapIndicator::Unknown => "unknown",
        NtpLeapIndicator::Unsynchronized => "unsynchronized",
    }
}

pub(crate) fn mode(mode: NtpMode) -> &'static str {
    match mode {
        NtpMode::Request => "request",
        NtpMode::Response => "response",
    }
}

// A mode of the older header (RFC 5905, figure 10).
pub(crate) fn older_mode(bits: u8) -> &'static str {
    match bits {
        0 => "reserved",
        1 => "symmetric active",
        2 => "symmetric passive",
        3 => "client",
        4 => "server",
        5 => "broadcast",
        6 => "NTP control message",
        _ => "reserved for private use",
    }
}

// A stratum of the older header (RFC 5905, figure 11; of 0, section 7.4).
pub(crate) fn stratum(stratum: u8) -> &'static str {
    match stratum {
        0 => "unspecified, or a kiss code",
        1 => "primary server",
        2..=15 => "secondary server",
        16 => "unsynchronized",
        _ => "reserved",
    }
}

pub(crate) fn timescale(timescale: NtpTimescale) -> &'static str {
    match timescale {
        NtpTimescale::Utc => "UTC",
        NtpTimescale::Tai => "TAI",
        NtpTimescale::Ut1 => "UT1",
        NtpTimescale::LeapSmearedUtc => "UTC with smeared leap seconds",
    }
}

pub(crate) fn yes_or_no(is_so: bool) -> &'static str {
    if is_so { "yes" } else { "no" }
}
