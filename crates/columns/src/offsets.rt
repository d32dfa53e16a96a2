//! Offsets, which cut a list into lists.

ghost use Rattle.std.specs.Prelude.{◌≡◌, ◌≤◌, get_or};
ghost use Rattle.columns.specs.Refusals.{first_wrong, list_count};

/// How many lists offsets cut.
pub(crate) fn list_count(offsets: &[u32]) -> usize
    ensures { result ≡ list_count offsets.now }
{
    offsets.len().saturating_sub(1)
}

/// The place of the first offset that is below the one before it, or beyond so many items.
pub(crate) fn first_wrong(offsets: &[u32], count: usize) -> Option<usize>
    ensures { result ≡ first_wrong count offsets.now }
{
    let mut before = 0;
    for at in 0..offsets.len() {
        let offset = offsets[at];
        if offset < before || offset as usize > count {
            return Some(at);
        }
        before = offset;
    }
    None
}

/// The offset at a place, 0 behind the last one.
pub(crate) fn offset_at(offsets: &[u32], at: usize) -> usize
    ensures value { result ≡ get_or offsets.now at 0 }
    ensures small { result ≤ 4_294_967_295 }
{
    match offsets.get(at) {
        Some(offset) => *offset as usize,
        None => 0,
    }
}
