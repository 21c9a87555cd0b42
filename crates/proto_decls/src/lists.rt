// Lists in memory of just their size.
ghost use Rattle.std.specs.Prelude.{◌≡◌, IfOk};

use sqlite_items::Items;
use std::alloc::{AllocError, Global};

// A list with more items stays where it is. Of a long list the system has given no memory that wasn't used.
const LONG: usize = 4096;

/// The same list, in memory of just its size if it isn't long, where a list that grew has up to twice as much. An `Err` comes only
/// where memory was refused.
pub fn fitted<T: Drop>(alloc: Global, items: Items<T>) -> Result<Items<T>, AllocError>
    ensures { IfOk result (λ list. list ≡ items) }
{
    if items.len() > LONG {
        return Ok(items);
    }
    let mut list = Items::new(alloc);
    list.append(items)?;
    Ok(list)
}
