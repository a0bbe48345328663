// The reader (EF ExtensionFieldData::deserialize): the fields of a packet, with a result lent for each
// sealed one.
#![tactic(auto)]

ghost use Rattle.std.specs.Prelude.{◌≡◌, [], ◌≤◌, length};
ghost use Rattle.read_entries.specs.Meant.{over_table};
ghost use Rattle.read_opening.specs.Meant.{lent_in};
ghost use Rattle.read_packet.specs.Meant.{input_of};
ghost use Rattle.read_packet.specs.ModelWalk.{walked, walk_of};
ghost use Rattle.read_packet.specs.ModelReply.{accepted_of, reply_of, no_fields, read_over, read_of};
ghost use Rattle.read_packet.specs.Meant.{refusing_read};

use base_answers::Refusal;
use base_sizes::{MOST_BYTES, greater};
use base_version::Version;
use read_entries::{CAPACITY, Table};
use read_opening::LentResults;
use read_step::Step;

// The counts are those of the three lists. The outer table holds the authenticated items and then the
// untrusted ones, the inner table the encrypted fields.
#[derive(Clone, Copy)]
pub enum Read {
    Accepted {
        authenticated_count: usize,
        untrusted_count: usize,
        encrypted_count: usize,
        remainder_len: usize,
        // The sealed field by whose server cookie the last opening came, numbered from 0.
        cookie: Option<usize>,
    },
    DecryptError {
        authenticated_count: usize,
        untrusted_count: usize,
        encrypted_count: usize,
        remainder_len: usize,
    },
    Refused {
        refusal: Refusal,
        // Where the outer field at fault starts in the packet.
        field_offset: usize,
    },
}

// What the walk came to: how it ended, the counts of the tables, and how many outer items are authenticated.
#[derive(Clone, Copy)]
struct Walked {
    ending: Result<(), Refusal>,
    at: usize,
    outer: usize,
    authenticated: usize,
    inner: usize,
    failed: bool,
    cookie: Option<usize>,
}

// The walk over the outer fields. The tables get an entry for each outer item and each inner field. It is
// long because the scan of a placeholder leaves the loop over fields by its label, as the rules name it.
fn walk(
    packet: &[u8],
    header_size: usize,
    version: Version,
    lent: &LentResults,
    outer: &mut Table,
    inner: &mut Table,
) -> Walked
    requires { (length packet.now ≤ 65535) × (header_size ≤ length packet.now) }
    ensures { walked result outer.new inner.new ≡ walk_of (input_of packet.now header_size version (lent_in lent.now)) outer.old inner.old }
{
    let cutoff = read_step::cutoff_of(version);
    let mut at = header_size;
    let mut outer_count: usize = 0;
    let mut authenticated: usize = 0;
    let mut inner_count: usize = 0;
    let mut seals: usize = 0;
    let mut failed = false;
    let mut cookie = None;
    let ending = 'fields: loop {
        match read_step::next(packet, at, cutoff, version) {
            Step::End => {
                break 'fields Ok(());
            }
            Step::Refused(refusal) => {
                break 'fields Err(refusal);
            }
            Step::Field {
                type_id,
                message_len,
                wire_length,
                is_placeholder,
            } => {
                if is_placeholder {
                    let from = at + 4;
                    let end = from + message_len;
                    let bytes = &packet[from..end];
                    'scan: for j in field_contents::zero_blocks(bytes)..bytes.len() {
                        if bytes[j] != 0 {
                            break 'fields Err(Refusal::MalformedCookiePlaceholder);
                        }
                    }
                }
                if CAPACITY <= outer_count {
                    break 'fields Err(Refusal::TooManyFields);
                }
                outer[outer_count] = read_entries::pack(message_len as u16, type_id, at as u16, 0);
                outer_count += 1;
                at += wire_length;
            }
            Step::Sealed {
                message_len,
                wire_length,
            } => {
                let from = at + 4;
                let end = from + message_len;
                let next = at + wire_length;
                let after = seals + 1;
                let bytes = &packet[from..end];
                match read_opening::open(bytes, version, seals as u16, lent, inner, inner_count) {
                    Err(fault) => {
                        inner_count = fault.inner_count;
                        break 'fields Err(fault.refusal);
                    }
                    Ok(None) => {
                        if CAPACITY <= outer_count {
                            break 'fields Err(Refusal::TooManyFields);
                        }
                        outer[outer_count] = read_entries::pack(
                            message_len as u16,
                            field_kinds::NTS_ENCRYPTED_FIELD,
                            at as u16,
                            0,
                        );
                        outer_count += 1;
                        failed = true;
                        seals = after;
                        at = next;
                    }
                    Ok(Some(opened)) => {
                        cookie = opened.cookie;
                        inner_count = opened.inner_count;
                        authenticated = outer_count;
                        seals = after;
                        at = next;
                    }
                }
            }
        }
    };
    Walked {
        ending,
        at,
        outer: outer_count,
        authenticated,
        inner: inner_count,
        failed,
        cookie,
    }
}

// The answer to a walk that reached the end of the fields.
fn accept(w: Walked, remainder_len: usize) -> Read
    requires { w.authenticated ≤ w.outer }
    ensures { result ≡ accepted_of w remainder_len }
{
    let untrusted_count = w.outer - w.authenticated;
    if w.failed {
        return Read::DecryptError {
            authenticated_count: w.authenticated,
            untrusted_count,
            encrypted_count: w.inner,
            remainder_len,
        };
    }
    Read::Accepted {
        authenticated_count: w.authenticated,
        untrusted_count,
        encrypted_count: w.inner,
        remainder_len,
        cookie: w.cookie,
    }
}

// A refusal: both tables are blanked from their start.
fn refuse(
    refusal: Refusal,
    field_offset: usize,
    outer: &mut Table,
    to_outer: usize,
    inner: &mut Table,
    to_inner: usize,
) -> Read
    ensures { reply_of result outer.new inner.new ≡ refusing_read refusal field_offset (over_table outer.old [] to_outer) (over_table inner.old [] to_inner) }
{
    read_entries::blank(outer, 0, to_outer);
    read_entries::blank(inner, 0, to_inner);
    Read::Refused {
        refusal,
        field_offset,
    }
}

// A packet without fields, as most are.
fn no_fields(
    remainder_len: usize,
    outer: &mut Table,
    used_outer: usize,
    inner: &mut Table,
    used_inner: usize,
) -> Read
    ensures { reply_of result outer.new inner.new ≡ no_fields remainder_len (over_table outer.old [] used_outer) (over_table inner.old [] used_inner) }
{
    read_entries::blank(outer, 0, used_outer);
    read_entries::blank(inner, 0, used_inner);
    Read::Accepted {
        authenticated_count: 0,
        untrusted_count: 0,
        encrypted_count: 0,
        remainder_len,
        cookie: None,
    }
}

// Reads into tables that a host uses again and again. Entries past `used_outer` and `used_inner` are
// left as they are, unless an item was found there.
pub fn deserialize_over(
    packet: &[u8],
    header_size: usize,
    version: Version,
    lent: &LentResults,
    outer: &mut Table,
    used_outer: usize,
    inner: &mut Table,
    used_inner: usize,
) -> Read
    ensures { reply_of result outer.new inner.new ≡ read_over (input_of packet.now header_size version (lent_in lent.now)) outer.old used_outer inner.old used_inner }
{
    if MOST_BYTES < packet.len() {
        let fault = Refusal::PacketTooLong;
        return refuse(fault, 0, outer, used_outer, inner, used_inner);
    }
    if packet.len() < header_size {
        let fault = Refusal::HeaderPastEnd;
        return refuse(fault, 0, outer, used_outer, inner, used_inner);
    }
    let region = packet.len() - header_size;
    if region <= read_step::cutoff_of(version) {
        return no_fields(region, outer, used_outer, inner, used_inner);
    }
    let w = walk(packet, header_size, version, lent, outer, inner);
    let at = w.at;
    if let Err(refusal) = w.ending {
        let to_outer = greater(used_outer, w.outer);
        let to_inner = greater(used_inner, w.inner);
        return refuse(refusal, at, outer, to_outer, inner, to_inner);
    }
    read_entries::blank(outer, w.outer, used_outer);
    read_entries::blank(inner, w.inner, used_inner);
    accept(w, packet.len() - at)
}

// Reads into tables that may hold anything: entries past the counts are blank afterwards.
pub fn deserialize(
    packet: &[u8],
    header_size: usize,
    version: Version,
    lent: &LentResults,
    outer: &mut Table,
    inner: &mut Table,
) -> Read
    ensures { reply_of result outer.new inner.new ≡ read_of (input_of packet.now header_size version (lent_in lent.now)) outer.old inner.old }
{
    deserialize_over(
        packet,
        header_size,
        version,
        lent,
        outer,
        CAPACITY,
        inner,
        CAPACITY,
    )
}
