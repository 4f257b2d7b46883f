// An item of a list read or stored by its place, and a row of the table; past the end there is none.
ghost use Rattle.std.specs.Prelude.{◌≡◌, get_or, set};

// The item at a place, or another where there is none.
pub fn item_or<T: Copy>(items: &[T], place: usize, other: T) -> T
    ensures { result ≡ get_or items.now place other }
{
    items.get(place).copied().unwrap_or(other)
}

// The item is stored at its place; past the end nothing is.
pub fn store<T: Copy>(items: &mut [T], place: usize, item: T)
    ensures { items.new ≡ set items.old place item }
{
    if place < items.len() {
        items[place] = item;
    }
}

pub fn row_at(rows: &[u64], place: usize) -> u64
    ensures { result ≡ get_or rows.now place 0 }
{
    item_or(rows, place, 0)
}

pub fn set_row(rows: &mut [u64], place: usize, row: u64)
    ensures { rows.new ≡ set rows.old place row }
{
    store(rows, place, row);
}
