// The message authentication code at a packet's end (MAC mac.rs): a key id and a body.
#![tactic(auto)]

ghost use Rattle.std.specs.Prelude.{◌≡◌};
ghost use Rattle.base_store.specs.Meant.{wrote};
ghost use Rattle.mac.specs.Meant.{told_of, is_mac, mac_read, mac_body, mac_write};

use base_answers::Refusal;

#[derive(Clone, Copy)]
pub struct Mac {
    pub keyid: u32,
}

// A key id alone, which is a crypto-NAK, or with a digest of 16 or 20 bytes.
fn is_mac(len: usize) -> bool
    ensures { result ≡ is_mac len }
{
    matches!(len, 4 | 20 | 24)
}

// The key id.
#[tactic(auto, unfolding(crate::specs::Meant::mac_read))]
pub fn deserialize(data: &[u8]) -> Result<Mac, Refusal>
    ensures { told_of result ≡ told_of (mac_read «data».now) }
{
    if is_mac(data.len()) {
        let keyid = base_big_endian::be32(data, 0);
        Ok(Mac { keyid })
    } else {
        Err(Refusal::IncorrectLength)
    }
}

// The bytes after the key id, as a part of what was lent; none where it is refused.
#[tactic(auto, unfolding(crate::specs::Meant::mac_body))]
pub fn body(data: &[u8]) -> &[u8]
    ensures { result.now ≡ mac_body «data».now }
{
    if !is_mac(data.len()) {
        return &data[..0];
    }
    &data[4..]
}

// Writes key id and body from `at` on.
pub fn serialize(keyid: u32, body: &[u8], out: &mut [u8], at: usize) -> Result<usize, Refusal>
    ensures { wrote result out.new ≡ mac_write keyid body.now out.old at }
{
    let count = 4 + body.len();
    if !is_mac(count) {
        return Err(Refusal::CannotBeMade);
    }
    if base_store::room(out.len(), at) < count {
        return Err(Refusal::NoRoom);
    }
    base_store::put32(out, at, keyid);
    base_store::copy(out, at + 4, body);
    Ok(count)
}
