// The bytes of a field: type, length, body, and zeros to its end (EF encode_framing, encode_padding).
#![tactic(auto)]

ghost use Rattle.std.specs.Prelude.{◌≡◌, ◌-◌};
ghost use Rattle.base_store.specs.Model.{stored};
ghost use Rattle.field_bytes.specs.Meant.{field_bytes};

// Stores a field of this wire length from `at` on.
pub fn put_field(
    out: &mut [u8],
    at: usize,
    type_id: u16,
    length: u16,
    body: &[u8],
    wire_length: usize,
)
    ensures { out.new ≡ stored out.old at (field_bytes type_id length body.now wire_length) }
{
    let used = 4 + body.len();
    let zeros = wire_length.saturating_sub(used);
    if out.len() < at || out.len() - at < used + zeros {
        return;
    }
    base_store::put16(out, at, type_id);
    base_store::put16(out, at + 2, length);
    base_store::copy(out, at + 4, body);
    base_store::fill(out, at + used, zeros);
}
