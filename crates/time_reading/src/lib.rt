// The time reading (rules 17): what a header's root delay and root dispersion are in seconds.
#![tactic(auto)]

ghost use Rattle.std.specs.Prelude.{◌≡◌};
ghost use Rattle.time_reading.specs.Meant.{reading_of};
ghost use Rattle.time_reading.specs.Model.{with_distance};

use time_units::{NtpShort, Time32};

#[repr(C)]
#[derive(Clone, Copy)]
pub struct TimeReading {
    pub delay_seconds: f64,
    pub dispersion_seconds: f64,
    pub distance_seconds: f64,
}

// Of two numbers of seconds. The delay is that of the way there and back, of which RFC 5905 counts half.
fn with_distance(delay_seconds: f64, dispersion_seconds: f64) -> TimeReading
    ensures { result ≡ with_distance delay_seconds dispersion_seconds }
{
    TimeReading {
        delay_seconds,
        dispersion_seconds,
        distance_seconds: delay_seconds * 0.5 + dispersion_seconds,
    }
}

// All three are exact. Both counts are of the type that says 2^-28 s.
pub fn time_reading(root_delay: Time32, root_dispersion: Time32) -> TimeReading
    ensures { result ≡ reading_of 28 root_delay.0 root_dispersion.0 }
{
    let delay_seconds = root_delay.seconds();
    let dispersion_seconds = root_dispersion.seconds();
    with_distance(delay_seconds, dispersion_seconds)
}

// The same of the header of NTPv3 and NTPv4. Both counts are of the type that says 2^-16 s.
pub fn time_reading_v3v4(root_delay: NtpShort, root_dispersion: NtpShort) -> TimeReading
    ensures { result ≡ reading_of 16 root_delay.0 root_dispersion.0 }
{
    with_distance(root_delay.seconds(), root_dispersion.seconds())
}
