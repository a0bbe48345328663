// A sealed field and the result that the host lends for it (the calls of CipherProvider::get and of
// RawEncryptedField::decrypt in EF ExtensionFieldData::deserialize).
#![tactic(auto)]

ghost use Rattle.std.specs.Prelude.{◌≡◌};
ghost use Rattle.read_opening.specs.Meant.{lent_in};
ghost use Rattle.read_opening.specs.Model.{cookie_by, result_of, opening_reply, opening_of};

use base_answers::Refusal;
use base_version::Version;
use read_entries::Table;
use read_plaintext::InnerFault;

// A sealed field that was opened: how many entries the table has now, and the sealed field by whose server cookie the opening
// came, numbered from 0, if it came by one.
#[derive(Clone, Copy)]
pub struct Opened {
    pub inner_count: usize,
    pub cookie: Option<usize>,
}

// What the host lends for the sealed fields of a packet: of each field's result a verdict, and where its plaintext starts in
// `plain` and how long it is.
#[derive(Clone, Copy)]
pub struct LentResults<'a> {
    pub verdicts: &'a [u8],
    pub starts: &'a [usize],
    pub lens: &'a [usize],
    pub plain: &'a [u8],
}

// Where the plaintext is that a result lends.
#[derive(Clone, Copy)]
pub struct Plaintext {
    pub start: usize,
    pub end: usize,
    pub cookie: Option<usize>,
}

fn cookie_of(verdict: u8, k: usize) -> Option<usize>
    ensures { result ≡ cookie_by verdict k }
{
    if verdict == 3 { Some(k) } else { None }
}

// The result number `k`: the entry of that number in each of the three lists. None where the host had no key, or
// opening failed.
fn lent_result(lent: &LentResults, k: usize) -> Result<Option<Plaintext>, Refusal>
    ensures { result ≡ result_of (lent_in lent.now) k }
{
    if lent.verdicts.len() <= k {
        return Err(Refusal::NoResult);
    }
    if lent.starts.len() <= k {
        return Err(Refusal::NoResult);
    }
    if lent.lens.len() <= k {
        return Err(Refusal::NoResult);
    }
    let verdict = lent.verdicts[k];
    if 3 < verdict {
        return Err(Refusal::MalformedResult);
    }
    if verdict < 2 {
        return Ok(None);
    }
    let start = lent.starts[k];
    let len = lent.lens[k];
    if lent.plain.len() < start {
        return Err(Refusal::MalformedResult);
    }
    if lent.plain.len() - start < len {
        return Err(Refusal::MalformedResult);
    }
    Ok(Some(Plaintext {
        start,
        end: start + len,
        cookie: cookie_of(verdict, k),
    }))
}

// Opens a sealed field by its result: the plaintext's fields are added to the table, which has `count` entries. `seal` is the
// number of the sealed field, and of its result. None where the host had no key, or opening failed.
pub fn open(
    message: &[u8],
    version: Version,
    seal: u16,
    lent: &LentResults,
    inner: &mut Table,
    count: usize,
) -> Result<Option<Opened>, InnerFault>
    ensures { opening_reply result inner.new ≡ opening_of version message.now seal (lent_in lent.now) inner.old count }
{
    if let Err(refusal) = field_sealed::from_message_bytes(message) {
        return Err(InnerFault {
            refusal,
            inner_count: count,
        });
    }
    match lent_result(lent, seal as usize) {
        Err(refusal) => Err(InnerFault {
            refusal,
            inner_count: count,
        }),
        Ok(None) => Ok(None),
        Ok(Some(place)) => {
            let part = &lent.plain[place.start..place.end];
            let inner_count = read_plaintext::inner_fields(part, version, seal, inner, count)?;
            Ok(Some(Opened {
                inner_count,
                cookie: place.cookie,
            }))
        }
    }
}
