// The message authentication code at a packet's end.
#![tactic(auto)]

ghost use Rattle.std.specs.Prelude.{◌≡◌, length};
ghost use Rattle.mac.specs.Meant.{mac_read, mac_body, mac_write};
ghost use Rattle.host.specs.Meant.{leaving, of_write};
ghost use Rattle.host_mac.specs.Meant.{mac_row};

use base_answers::Refusal;
use host::NtpLength;
use mac::Mac;

// What reading a MAC tells: 0 and its key id, or 1; and how many of the last bytes lent are its body.
#[repr(C)]
#[derive(Clone, Copy)]
pub struct NtpMac {
    pub number: usize,
    pub keyid: usize,
    pub body_len: usize,
}

fn mac_row(answer: Result<Mac, Refusal>, body_len: usize) -> NtpMac
    ensures { result ≡ mac_row answer body_len }
{
    match answer {
        Err(refusal) => NtpMac {
            number: host::number_of(refusal),
            keyid: 0,
            body_len,
        },
        Ok(Mac { keyid }) => {
            let id = keyid as usize;
            NtpMac {
                number: 0,
                keyid: id,
                body_len,
            }
        }
    }
}

// Reads a MAC (`mac::deserialize` and `mac::body`).
pub fn read(data: &[u8]) -> NtpMac
    ensures { result ≡ mac_row (mac_read «data».now) (length (mac_body «data».now)) }
{
    let body_len = mac::body(data).len();
    mac_row(mac::deserialize(data), body_len)
}

// Writes a MAC from `at` on (`mac::serialize`).
pub fn write(keyid: u32, body: &[u8], out: &mut [u8], at: usize) -> NtpLength
    ensures { leaving result out.new ≡ of_write (mac_write keyid body.now out.old at) }
{
    host::length_row(mac::serialize(keyid, body, out, at))
}
