// The lines of the header of NTPv5, and those that both headers have.
use crate::counts::Place;
use crate::figures::{PowerOfTwo, Seconds};
use crate::{lines, names};
use header_codes::NtpFlags;
use header_v5::NtpHeaderV5;
use std::rt::Stdout;
use time_reading::TimeReading;

// How long a header is, in every version.
pub(crate) const HEADER: usize = 48;

// The title of a header that begins at an offset.
pub(crate) fn show_title(out: Stdout, version: u8, at: usize) {
    let count = HEADER;
    let place = Place { count, at };
    lines::print_named(out, "header", format_args!("NTPv{version}, {place}"));
}

fn show_flags(out: Stdout, flags: NtpFlags) {
    lines::print_named(out, "  synchronized", names::yes_or_no(flags.synchronized));
    lines::print_named(
        out,
        "  interleaved",
        names::yes_or_no(flags.interleaved_mode),
    );
    lines::print_named(out, "  authnak", names::yes_or_no(flags.authnak));
}

// A time of a header in seconds, and the count of 2^-scale s that the header has for it.
fn show_time(out: Stdout, name: &str, seconds: f64, count: u32, scale: u8) {
    let seconds = Seconds(seconds);
    lines::print_named(
        out,
        name,
        format_args!("{seconds} ({count} of 2^-{scale} s)"),
    );
}

// A time reading, with the counts of 2^-scale s that the header has. What the distance is made of is for `time_reading`
// to say.
pub(crate) fn show_reading(
    out: Stdout,
    reading: TimeReading,
    delay: u32,
    dispersion: u32,
    scale: u8,
) {
    show_time(out, "  root delay", reading.delay_seconds, delay, scale);
    show_time(
        out,
        "  root dispersion",
        reading.dispersion_seconds,
        dispersion,
        scale,
    );
    lines::print_named(out, "  root distance", Seconds(reading.distance_seconds));
}

fn show_newer_reading(out: Stdout, header: NtpHeaderV5) {
    let delay = header.root_delay;
    let dispersion = header.root_dispersion;
    show_reading(
        out,
        time_reading::time_reading(delay, dispersion),
        delay.units_of_2pow_minus_28_s(),
        dispersion.units_of_2pow_minus_28_s(),
        28,
    );
}

// A number whose bits are shown.
fn show_raw(out: Stdout, name: &str, number: u64) {
    lines::print_named(out, name, format_args!("{number:#018x}"));
}

// The header of NTPv5.
pub(crate) fn show_newer(out: Stdout, header: NtpHeaderV5, at: usize) {
    show_title(out, 5, at);
    lines::print_named(out, "  leap", names::leap(header.leap));
    lines::print_named(out, "  mode", names::mode(header.mode));
    lines::print_named(out, "  stratum", header.stratum);
    let poll = header.poll;
    let receive = header.receive_timestamp;
    let transmit = header.transmit_timestamp;
    lines::print_named(out, "  poll", PowerOfTwo(poll.as_log2_seconds()));
    lines::print_named(
        out,
        "  precision",
        PowerOfTwo(header.precision_log2_seconds),
    );
    show_newer_reading(out, header);
    lines::print_named(out, "  timescale", names::timescale(header.timescale));
    lines::print_named(out, "  era", header.era.0);
    show_flags(out, header.flags);
    show_raw(out, "  server cookie", header.server_cookie.0);
    show_raw(out, "  client cookie", header.client_cookie.0);
    show_raw(out, "  receive time", receive.units_of_2pow_minus_32_s());
    show_raw(out, "  transmit time", transmit.units_of_2pow_minus_32_s());
}
