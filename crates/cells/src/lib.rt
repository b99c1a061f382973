// The 5-byte form of values: the kind, then 32 bits, low byte first. Cells and environment share one load and one store.
#![tactic(auto)]

ghost use Rattle.std.specs.Prelude.{◌≡◌, ◌+◌, ◌*◌, ◌<◌, length, drop};
ghost use Rattle.std.proofs.lemmas.List.Edits.{sets};
ghost use Rattle.rules.specs.Running.{bytes_of, bits_at, value_at};

pub mod tests;

use script::Value;

// The 32 bits at place i.
pub fn bits_at(bytes: &[u8], i: usize) -> u32
    requires { 5 * i + 4 < length bytes.now }
    ensures { result ≡ bits_at (drop (5 * i) bytes.now) }
{
    let at = 5 * i;
    u32::from_le_bytes([bytes[at + 1], bytes[at + 2], bytes[at + 3], bytes[at + 4]])
}

// The value at place i.
pub fn load(bytes: &[u8], i: usize) -> Value
    requires { 5 * i + 4 < length bytes.now }
    ensures { result ≡ value_at (drop (5 * i) bytes.now) }
{
    let bits = bits_at(bytes, i);
    match bytes[5 * i] {
        0 => Value::Word(bits),
        1 => Value::Truth(bits == 1),
        _ => Value::Location(bits),
    }
}

// Puts a value at place i.
pub fn store(bytes: &mut [u8], i: usize, v: Value)
    requires { 5 * i + 4 < length bytes.old }
    ensures { bytes.new ≡ sets bytes.old (5 * i) (bytes_of v) }
{
    let at = 5 * i;
    let [first, second, third, fourth] = v.bits().to_le_bytes();
    bytes[at] = v.kind() as u8;
    bytes[at + 1] = first;
    bytes[at + 2] = second;
    bytes[at + 3] = third;
    bytes[at + 4] = fourth;
}
