// The header of a packet, of any version that has one.
use crate::{header, older};
use base_answers::Refusal;
use base_version::Version;
use header_numbers::HeaderError;
use header_v3v4::NtpHeaderV3V4;
use header_v5::NtpHeaderV5;
use std::rt::Stdout;

#[derive(Clone, Copy)]
pub(crate) enum Header {
    V3V4(NtpHeaderV3V4),
    V5(NtpHeaderV5),
}

fn read_newer(bytes: &[u8]) -> Result<Header, Refusal> {
    match header_v5::deserialize(bytes) {
        Ok(header) => Ok(Header::V5(header)),
        Err(HeaderError::InvalidVersion(_)) => Err(Refusal::InvalidVersion),
        Err(HeaderError::Refused(refusal)) => Err(refusal),
    }
}

impl Header {
    // Whatever is neither NTPv3 nor NTPv4 goes to the header of NTPv5, which refuses any other version.
    pub(crate) fn read(bytes: &[u8]) -> Result<Header, Refusal> {
        match header_v3v4::deserialize(bytes) {
            Ok(header) => Ok(Header::V3V4(header)),
            Err(HeaderError::InvalidVersion(_)) => read_newer(bytes),
            Err(HeaderError::Refused(refusal)) => Err(refusal),
        }
    }

    // The version of the fields that follow. NTPv3 has none.
    pub(crate) fn version(self) -> Option<Version> {
        match self {
            Header::V3V4(header) if header.version == 3 => None,
            Header::V3V4(_) => Some(Version::V4),
            Header::V5(_) => Some(Version::V5),
        }
    }

    // The lines of a header that begins at an offset.
    pub(crate) fn show(self, out: Stdout, at: usize) {
        match self {
            Header::V3V4(header) => older::show(out, header, at),
            Header::V5(header) => header::show_newer(out, header, at),
        }
    }
}
