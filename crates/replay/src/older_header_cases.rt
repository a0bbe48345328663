// docs/REPLAY.md, "The header of NTPv3 and NTPv4".
use crate::answers::Answers;
use crate::buffers::Buffers;
use crate::header_cases::{short_of, timestamp_of};
use crate::words::Words;
use header_codes::PollInterval;
use header_v3v4::{LeapBits, NtpHeaderV3V4, ReferenceId};

// Further words: the thirteen words of a header.
fn put_header(answers: &mut Answers, header: NtpHeaderV3V4) {
    let leap = header.leap.0;
    let version = header.version;
    let mode = header.mode;
    let stratum = header.stratum;
    let poll = header.poll.as_byte();
    answers.print(format_args!(" {leap} {version} {mode} {stratum} {poll}"));
    let precision = header.precision_log2_seconds;
    let delay = header.root_delay.units_of_2pow_minus_16_s();
    let dispersion = header.root_dispersion.units_of_2pow_minus_16_s();
    let reference_id = header.reference_id.0;
    answers.print(format_args!(" {precision} {delay} {dispersion} {reference_id}"));
    let reference = header.reference_timestamp.units_of_2pow_minus_32_s();
    let origin = header.origin_timestamp.units_of_2pow_minus_32_s();
    let receive = header.receive_timestamp.units_of_2pow_minus_32_s();
    let transmit = header.transmit_timestamp.units_of_2pow_minus_32_s();
    answers.print(format_args!(" {reference} {origin} {receive} {transmit}"));
}

// header34-read BYTES
pub(crate) fn read(words: &mut Words, buffers: &mut Buffers, answers: &mut Answers) -> Option<()> {
    let bytes = words.bytes(&mut buffers.given)?;
    words.end()?;
    match header_v3v4::deserialize(bytes) {
        Ok(header) => {
            answers.print('0');
            put_header(answers, header);
        }
        Err(error) => answers.header_error(error),
    }
    Some(())
}

// The thirteen words of a header. Leap, version and mode may be any number of eight bits: the library judges them.
fn header_of(words: &mut Words) -> Option<NtpHeaderV3V4> {
    Some(NtpHeaderV3V4 {
        leap: LeapBits(words.number()?),
        version: words.number()?,
        mode: words.number()?,
        stratum: words.number()?,
        poll: PollInterval::from_byte(words.number()?),
        precision_log2_seconds: words.precision()?,
        root_delay: short_of(words)?,
        root_dispersion: short_of(words)?,
        reference_id: ReferenceId(words.number()?),
        reference_timestamp: timestamp_of(words)?,
        origin_timestamp: timestamp_of(words)?,
        receive_timestamp: timestamp_of(words)?,
        transmit_timestamp: timestamp_of(words)?,
    })
}

// header34-write AT OUT HEADER
pub(crate) fn write(words: &mut Words, buffers: &mut Buffers, answers: &mut Answers) -> Option<()> {
    let at = words.number()?;
    let out = words.bytes(&mut buffers.lent)?;
    let header = header_of(words)?;
    words.end()?;
    let written = header_v3v4::serialize(header, out, at);
    answers.written(written, out);
    Some(())
}
