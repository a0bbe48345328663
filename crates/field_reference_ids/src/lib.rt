// Reference ids of NTPv5 (REF v5/extension_fields.rs): a client asks for a part of the server's filter of
// reference ids, and the server answers with that part.
#![tactic(auto)]

pub mod request;
pub mod response;
