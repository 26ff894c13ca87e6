// Stores into one place of an array of a state. A processor that the array has no place for changes nothing.
ghost use Rattle.std.specs.Prelude.{◌≡◌, set};

// Kept: the place by its index. After a `get_mut` of a slice of any type the proof doesn't know what the slice ends as.
pub fn store<T: Copy>(items: &mut [T], processor: u8, item: T)
    ensures { items.new ≡ set items.old processor item }
{
    let p = processor as usize;
    if p < items.len() {
        items[p] = item;
    }
}
