// No code: fields on the wire, and a region that is laid out as fields.
#![tactic(auto)]
