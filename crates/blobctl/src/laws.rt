//! Laws of the definitions alone.
ghost use Rattle.blobctl.specs.OneText.{HasOneText, HasText};
ghost use Rattle.blobctl.specs.ScriptRuns.{BooksFollowRows, ScriptsAreRuns};
ghost use Rattle.blobctl.specs.WorkersOrder.{WorkersHaveOrders};
ghost use Rattle.blobctl.specs.WorkersText.{
  OneWorkerHasHistory,
  OneWritesAsSeveral,
  WorkersWriteOneText,
};

use blob_store::laws::{interleavings, orders_of_rows};
use store_book::laws::isolation;

/// A script without bad rows has a text on each opening catalog. If none of its rows leases a blob, it has only one:
/// the definitions determine the replies and the book that are written for it.
pub fn one_text()
    ensures some { HasText }
    ensures most { HasOneText }
{}

/// A script's replies and book are those of a run of commands and sweeps, of the commands that its rows spell. Hence
/// the book depends only on each tenant's rows, in their order. This holds for scripts in which no reply is that the
/// store is full or a name is taken, and in which no two closes supply different contents with one digest.
pub fn tenants_rows()
    ensures runs { ScriptsAreRuns }
    ensures books { BooksFollowRows }
{
    isolation();
}

/// A script writes the same text for each number of workers, one included, and for each order in which they reach their
/// turns. This holds for scripts whose rows neither lease nor sweep and whose lanes share no tenant. No reply is one
/// that other tenants can cause, and no two closes supply different contents with one digest. The rows that one worker
/// plays are one history too.
pub fn workers_text()
    ensures history { OneWorkerHasHistory }
    ensures one { OneWritesAsSeveral }
    ensures several { WorkersWriteOneText }
{
    interleavings();
}

/// Several workers write for a script what its rows do in some order, one whole row after another: the reply to each
/// row, and then the book. The rows of each worker keep their order. This holds for runs in which no reply is `Busy` or
/// `Quota`, and for fewer than 2^63 rows with fewer than 2^63 bytes in their bodies.
pub fn workers_order()
    ensures orders { WorkersHaveOrders }
{
    orders_of_rows();
}
