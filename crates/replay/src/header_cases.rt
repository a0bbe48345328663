// docs/REPLAY.md, "The NTPv5 header" and "The time reading".
ghost use Rattle.time_reading.specs.LawsExact.{Numbers};

use crate::answers::Answers;
use crate::buffers::Buffers;
use crate::words::Words;
use header_codes::{NtpFlags, NtpLeapIndicator, NtpMode, NtpTimescale, PollInterval};
use header_v5::{NtpClientCookie, NtpEra, NtpHeaderV5, NtpServerCookie};
use time_reading::TimeReading;
use time_units::{NtpShort, NtpTimestamp, Time32};

fn name_of(leap: NtpLeapIndicator) -> &'static str {
    match leap {
        NtpLeapIndicator::NoWarning => "0",
        NtpLeapIndicator::Leap61 => "1",
        NtpLeapIndicator::Leap59 => "2",
        NtpLeapIndicator::Unknown => "unknown",
        NtpLeapIndicator::Unsynchronized => "unsynchronized",
    }
}

// Further words: the sixteen words of a header.
fn put_header(answers: &mut Answers, header: NtpHeaderV5) {
    let leap = name_of(header.leap);
    let mode = header_codes::mode_to_bits(header.mode);
    let stratum = header.stratum;
    let poll = header.poll.as_byte();
    let precision = header.precision_log2_seconds;
    answers.print(format_args!(" {leap} {mode} {stratum} {poll} {precision}"));
    let delay = header.root_delay.units_of_2pow_minus_28_s();
    let dispersion = header.root_dispersion.units_of_2pow_minus_28_s();
    let timescale = header_codes::timescale_to_bits(header.timescale);
    let era = header.era.0;
    answers.print(format_args!(" {delay} {dispersion} {timescale} {era}"));
    let synchronized = u8::from(header.flags.synchronized);
    let interleaved = u8::from(header.flags.interleaved_mode);
    let authnak = u8::from(header.flags.authnak);
    answers.print(format_args!(" {synchronized} {interleaved} {authnak}"));
    let server = header.server_cookie.0;
    let client = header.client_cookie.0;
    let receive = header.receive_timestamp.units_of_2pow_minus_32_s();
    let transmit = header.transmit_timestamp.units_of_2pow_minus_32_s();
    answers.print(format_args!(" {server} {client} {receive} {transmit}"));
}

// header5-read BYTES
pub(crate) fn read(words: &mut Words, buffers: &mut Buffers, answers: &mut Answers) -> Option<()> {
    let bytes = words.bytes(&mut buffers.given)?;
    words.end()?;
    match header_v5::deserialize(bytes) {
        Ok(header) => {
            answers.print('0');
            put_header(answers, header);
        }
        Err(error) => answers.header_error(error),
    }
    Some(())
}

fn leap_of(words: &mut Words) -> Option<NtpLeapIndicator> {
    match words.next()? {
        "0" => Some(NtpLeapIndicator::NoWarning),
        "1" => Some(NtpLeapIndicator::Leap61),
        "2" => Some(NtpLeapIndicator::Leap59),
        "unknown" => Some(NtpLeapIndicator::Unknown),
        "unsynchronized" => Some(NtpLeapIndicator::Unsynchronized),
        _ => None,
    }
}

fn mode_of(words: &mut Words) -> Option<NtpMode> {
    match words.next()? {
        "3" => Some(NtpMode::Request),
        "4" => Some(NtpMode::Response),
        _ => None,
    }
}

fn timescale_of(words: &mut Words) -> Option<NtpTimescale> {
    match words.next()? {
        "0" => Some(NtpTimescale::Utc),
        "1" => Some(NtpTimescale::Tai),
        "2" => Some(NtpTimescale::Ut1),
        "3" => Some(NtpTimescale::LeapSmearedUtc),
        _ => None,
    }
}

fn flags_of(words: &mut Words) -> Option<NtpFlags> {
    Some(NtpFlags {
        synchronized: words.flag()?,
        interleaved_mode: words.flag()?,
        authnak: words.flag()?,
    })
}

// A word for a time.
pub(crate) fn timestamp_of(words: &mut Words) -> Option<NtpTimestamp> {
    Some(NtpTimestamp::from_units_of_2pow_minus_32_s(words.number()?))
}

fn time32_of(words: &mut Words) -> Option<Time32> {
    Some(Time32::from_units_of_2pow_minus_28_s(words.number()?))
}

// A word for a number of seconds in the older header.
pub(crate) fn short_of(words: &mut Words) -> Option<NtpShort> {
    Some(NtpShort::from_units_of_2pow_minus_16_s(words.number()?))
}

// The sixteen words of a header.
fn header_of(words: &mut Words) -> Option<NtpHeaderV5> {
    Some(NtpHeaderV5 {
        leap: leap_of(words)?,
        mode: mode_of(words)?,
        stratum: words.number()?,
        poll: PollInterval::from_byte(words.number()?),
        precision_log2_seconds: words.precision()?,
        root_delay: time32_of(words)?,
        root_dispersion: time32_of(words)?,
        timescale: timescale_of(words)?,
        era: NtpEra(words.number()?),
        flags: flags_of(words)?,
        server_cookie: NtpServerCookie(words.number()?),
        client_cookie: NtpClientCookie(words.number()?),
        receive_timestamp: timestamp_of(words)?,
        transmit_timestamp: timestamp_of(words)?,
    })
}

// header5-write AT OUT HEADER
pub(crate) fn write(words: &mut Words, buffers: &mut Buffers, answers: &mut Answers) -> Option<()> {
    let at = words.number()?;
    let out = words.bytes(&mut buffers.lent)?;
    let header = header_of(words)?;
    words.end()?;
    let written = header_v5::serialize(header, out, at);
    answers.written(written, out);
    Some(())
}

// The bits of a reading's numbers. None of them is a NaN, whose bits a program may not ask for.
fn put_reading(answers: &mut Answers, seconds: TimeReading)
    requires { Numbers seconds }
{
    let delay = seconds.delay_seconds.to_bits();
    let dispersion = seconds.dispersion_seconds.to_bits();
    let distance = seconds.distance_seconds.to_bits();
    answers.print(format_args!("0 {delay:016x} {dispersion:016x} {distance:016x}"));
}

// reading DELAY DISPERSION
pub(crate) fn reading(words: &mut Words, answers: &mut Answers) -> Option<()> {
    let delay = time32_of(words)?;
    let dispersion = time32_of(words)?;
    words.end()?;
    let seconds = time_reading::time_reading(delay, dispersion);
    put_reading(answers, seconds);
    Some(())
}

// reading34 DELAY DISPERSION
pub(crate) fn reading34(words: &mut Words, answers: &mut Answers) -> Option<()> {
    let delay = short_of(words)?;
    let dispersion = short_of(words)?;
    words.end()?;
    let seconds = time_reading::time_reading_v3v4(delay, dispersion);
    put_reading(answers, seconds);
    Some(())
}
