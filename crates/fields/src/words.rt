// The words of the kinds: compared with fields in reading, copied out in writing.
ghost use Rattle.std.specs.Prelude.{◌≡◌, ◌<◌};
ghost use Rattle.text.specs.Fields.{same_bytes, kind_named};
ghost use Rattle.text.specs.Code.Scan.{said_by};
ghost use Rattle.text.specs.Code.Output.{word_of};
ghost use Rattle.script.specs.Rows.Kinds.{kind_count};

use script::table::KINDS;

// The words in the order of the kinds.
const WORDS: [&[u8]; KINDS as usize] = [
    b"int", b"true", b"false", b"var", b"add", b"eq", b"not", b"and", b"if", b"let", b"ref",
    b"get", b"set", b"typed", b"sym",
];

// The word of a kind.
pub fn word(kind: u32) -> &'static [u8]
    requires { kind < kind_count }
    ensures { result.now ≡ word_of kind }
{
    WORDS[kind as usize]
}

// Whether two byte strings are the same.
pub fn same(a: &[u8], b: &[u8]) -> bool
    ensures { result ≡ same_bytes a.now b.now }
{
    if a.len() != b.len() {
        return false;
    }
    for i in 0..a.len() {
        if a[i] != b[i] {
            return false;
        }
    }
    true
}

// The kind whose word the field is.
pub fn kind_of(f: &[u8]) -> Option<u32>
    ensures { result ≡ said_by (kind_named f.now) }
{
    for k in 0..KINDS {
        if same(word(k), f) {
            return Some(k);
        }
    }
    None
}
