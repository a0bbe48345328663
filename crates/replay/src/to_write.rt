// A list of fields to write (docs/REPLAY.md, "Writing").
use crate::buffers::{Buffer, Lists, MOST_BYTES};
use crate::words::Words;

// The kinds of fields to write, in the order of the numbers that a list has for them (docs/DECISIONS.md, 30).
#[derive(Clone, Copy)]
enum ToWrite {
    Unknown,
    UniqueIdentifier,
    NtsCookie,
    NtsCookiePlaceholder,
    DraftIdentification,
    Padding,
    ReferenceIdRequest,
    ReferenceIdResponse,
    Marker,
}

impl Lists {
    // Adds the field of an entry. Some fields have bytes, which are put behind others, and some a length alone.
    fn push_field(&mut self, entry: &str, bytes: &mut Buffer<MOST_BYTES>) -> Option<()> {
        let mut parts = Words::new(entry, ':');
        let name = parts.next()?;
        let start = bytes.len();
        let (kind, number, len) = match name {
            "unknown" => {
                let type_id = parts.number()?;
                (ToWrite::Unknown, type_id, parts.more_bytes(bytes)?)
            }
            "uid" => (ToWrite::UniqueIdentifier, 0, parts.more_bytes(bytes)?),
            "cookie" => (ToWrite::NtsCookie, 0, parts.more_bytes(bytes)?),
            "placeholder" => {
                let len: u16 = parts.number()?;
                (ToWrite::NtsCookiePlaceholder, 0, usize::from(len))
            }
            "draft" => (ToWrite::DraftIdentification, 0, parts.more_bytes(bytes)?),
            "padding" => (ToWrite::Padding, 0, parts.number()?),
            "request" => {
                let payload_len: u16 = parts.number()?;
                (
                    ToWrite::ReferenceIdRequest,
                    parts.number()?,
                    usize::from(payload_len),
                )
            }
            "response" => (ToWrite::ReferenceIdResponse, 0, parts.more_bytes(bytes)?),
            "marker" => (ToWrite::Marker, 0, 0),
            _ => return None,
        };
        parts.end()?;
        self.kinds.try_push(kind as u8).ok()?;
        self.numbers.try_push(number).ok()?;
        self.starts.try_push(start).ok()?;
        self.lens.try_push(len).ok()
    }

    // Adds the fields of a list behind those of the lists before. Answers how many they are.
    pub(crate) fn take_fields(
        &mut self,
        words: &mut Words,
        bytes: &mut Buffer<MOST_BYTES>,
    ) -> Option<usize> {
        let before = self.kinds.len();
        for entry in words.entries()? {
            self.push_field(entry, bytes)?;
        }
        self.kinds.len().checked_sub(before)
    }
}
