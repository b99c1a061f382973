// What a slice holds from a place on.
ghost use Rattle.std.specs.Prelude.{◌≡◌, ◌==◌, drop};
ghost use Rattle.std.specs.List.{list_all};
ghost use Rattle.script.specs.Flat.{nodes_in};
ghost use Rattle.texts.specs.Slices.{is_unused};

use script::table::WIDTH;
use table::{node_at, unused};

// Whether every byte is `b`.
pub fn all_bytes(s: &[u8], b: u8) -> bool
    ensures { result ≡ list_all (λ c. c == b) s.now }
{
    s.iter().all(|c| *c == b)
}

// Whether every entry from `from` on is 0.
pub fn entries_clear(entries: &[u32], from: usize) -> bool
    ensures { result ≡ list_all (λ c. c == 0) (drop from entries.now) }
{
    entries.iter().skip(from).all(|entry| *entry == 0)
}

// Whether every node of the table from `from` on is the one that unused places hold.
pub fn nodes_clear(table: &[u32], from: usize) -> bool
    ensures { result ≡ list_all is_unused (drop from (nodes_in table.now)) }
{
    for i in from..table.len() / WIDTH {
        if node_at(table, i) != unused() {
            return false;
        }
    }
    true
}
