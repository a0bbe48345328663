// What crosses between the library and a host, whatever is called: enums become numbers here, as rule 2.1
// numbers them, a version among them; a bool is a byte that is 0 or not.
#![tactic(auto)]

ghost use Rattle.std.specs.Prelude.{◌≡◌};
ghost use Rattle.base_answers.specs.Meant.{number_of};
ghost use Rattle.host.specs.Meant.{version_of, length_of};

use base_answers::Refusal;
use base_version::Version;

// A version, as a host numbers it; none for any other number.
pub fn version_of(number: u8) -> Option<Version>
    ensures { result ≡ version_of number }
{
    match number {
        4 => Some(Version::V4),
        5 => Some(Version::V5),
        _ => None,
    }
}

pub fn number_of(refusal: Refusal) -> usize
    ensures { result ≡ number_of refusal }
{
    base_answers::number(refusal) as usize
}

// What is told with one value: 0 and how many bytes there are, or the number of a refusal and 0.
#[repr(C)]
#[derive(Clone, Copy)]
pub struct NtpLength {
    pub number: usize,
    pub len: usize,
}

pub fn length_row(answer: Result<usize, Refusal>) -> NtpLength
    ensures { result ≡ length_of answer }
{
    match answer {
        Err(refusal) => NtpLength {
            number: number_of(refusal),
            len: 0,
        },
        Ok(len) => NtpLength { number: 0, len },
    }
}
