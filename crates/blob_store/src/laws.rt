//! Laws of the definitions alone. Each is the contract of a function that does nothing.

ghost use Rattle.blob_store.specs.OneText.{WorkersWriteTheSame};
ghost use Rattle.blob_store.specs.RowOrders.{RowsHaveOrders};

/// A script writes the same text for each number of workers, and for each order in which these reach their turns. The
/// law holds for rows that neither lease nor sweep and whose lanes share no tenant. No reply may be that the store is
/// full, a blob has too many readers, a command cannot be counted, or memory ran out. No two closes may supply
/// different contents with one digest.
pub fn interleavings()
    ensures same { WorkersWriteTheSame }
{}

/// Several workers on a new store do what their rows do in some order, one whole row after another. Each row has the
/// same reply, the catalog at the end is the same, and the rows of each worker keep their order. The law holds if no
/// lane has a lease at the start, no reply is `Busy` or `Quota`, and there are fewer than 2^63 rows with fewer than
/// 2^63 bytes in their bodies. In that order no row has the reply `Memory`.
pub fn orders_of_rows()
    ensures orders { RowsHaveOrders }
{}
