// Reads from a list that contains a number for each entry, such as the rows of a board. The definition `tabulate` makes
// such lists.
ghost use Rattle.std.specs.Prelude.{◌≡◌, get_or};

// The row of an entry: the set of the entries that it conflicts with. Past the last row the set is empty.
// Kept: not one generic function with `encoding::byte_at`, `digits::pair_at` and `requests::length_at`: each is one
// chain of the library, which a name for all would only hide.
pub fn row_at(rows: &[u64], entry: u32) -> u64
    ensures { result ≡ get_or rows.now entry 0 }
{
    rows.get(entry as usize).copied().unwrap_or(0)
}
