// Whose rules a packet is read and written by: NTPv4 (RFC 5905 with RFC 7822) or NTPv5 (the draft).
#![tactic(auto)]

#[derive(Clone, Copy)]
pub enum Version {
    V4,
    V5,
}
