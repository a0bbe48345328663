// The lines of the header of NTPv3 and NTPv4, as `header_v3v4` reads it.
use crate::dates::Date;
use crate::figures::PowerOfTwo;
use crate::lines::Line;
use crate::{header, letters, lines, names, parts};
use header_v3v4::NtpHeaderV3V4;
use std::rt::Stdout;
use time_units::NtpTimestamp;

// The printable letters before the zeros that fill up the four bytes; none if anything else stands there.
fn letters_before_zeros(bytes: &[u8; 4]) -> &[u8] {
    let count = bytes
        .iter()
        .take_while(|letter| letters::is_printable(**letter))
        .count();
    if parts::behind(bytes, count).iter().all(|byte| *byte == 0) {
        return parts::within(bytes, 0, count);
    }
    &bytes[..0]
}

// Nothing is added for four bytes that are no letters.
fn letters_of(line: Line, what: &str, id: u32) -> Line {
    let bytes = id.to_be_bytes();
    let letters = letters_before_zeros(&bytes);
    if letters.is_empty() {
        return line;
    }
    line.show(format_args!(" ({what} "))
        .quoted(letters)
        .show(")")
}

fn address(line: Line, id: u32) -> Line {
    let [a, b, c, d] = id.to_be_bytes();
    line.show(format_args!(" ({a}.{b}.{c}.{d})"))
}

// What a reference id is depends on the stratum (RFC 5905, section 7.3). For a server with an IPv6 address it is four
// bytes of a hash, which can't be told from an IPv4 address.
fn show_reference_id(out: Stdout, stratum: u8, id: u32) {
    let line = lines::named(out, "  reference id").show(format_args!("{id:#010x}"));
    match stratum {
        0 => letters_of(line, "kiss code", id).end(),
        1 => letters_of(line, "source", id).end(),
        2..=15 => address(line, id).end(),
        _ => line.end(),
    }
}

fn show_timestamp(out: Stdout, name: &str, timestamp: NtpTimestamp) {
    let count = timestamp.units_of_2pow_minus_32_s();
    if count == 0 {
        return lines::print_named(out, name, "not set");
    }
    let date = Date(count);
    lines::print_named(out, name, format_args!("{date} ({count:#018x})"));
}

fn show_reading(out: Stdout, header: NtpHeaderV3V4) {
    let delay = header.root_delay;
    let dispersion = header.root_dispersion;
    header::show_reading(
        out,
        time_reading::time_reading_v3v4(delay, dispersion),
        delay.units_of_2pow_minus_16_s(),
        dispersion.units_of_2pow_minus_16_s(),
        16,
    );
}

pub(crate) fn show(out: Stdout, header: NtpHeaderV3V4, at: usize) {
    let stratum = header.stratum;
    let poll = header.poll;
    header::show_title(out, header.version, at);
    let leap = header_codes::leap_from_bits(header.leap.0);
    lines::print_named(out, "  leap", names::leap(leap));
    lines::print_named(out, "  mode", names::older_mode(header.mode));
    let name = names::stratum(stratum);
    lines::print_named(out, "  stratum", format_args!("{stratum} ({name})"));
    lines::print_named(out, "  poll", PowerOfTwo(poll.as_log2_seconds()));
    lines::print_named(
        out,
        "  precision",
        PowerOfTwo(header.precision_log2_seconds),
    );
    show_reading(out, header);
    show_reference_id(out, stratum, header.reference_id.0);
    show_timestamp(out, "  reference time", header.reference_timestamp);
    show_timestamp(out, "  origin time", header.origin_timestamp);
    show_timestamp(out, "  receive time", header.receive_timestamp);
    show_timestamp(out, "  transmit time", header.transmit_timestamp);
}
