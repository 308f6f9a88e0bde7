//! What a start after a crash restores.

ghost use Rattle.std.specs.Prelude.{◌≡◌};
ghost use Rattle.ghost_log.specs.Entries.{IsPrefix};
ghost use Rattle.locked_book.specs.Restoring.{SeesStoreHistory};
ghost use Rattle.store_replay.specs.Restarts.{HaveLogs, RestartsAs};

use blob_store::{Desk, Naming, StartedLog, Store};
use durable_log::IdleDevice;
use locked_book::{Step, StoreLog};
use log_disk::Disk;
use std::sync::Wait;

/// Lets a desk of a store see the store's whole history, and states what a start after a crash restores of it. Returns the
/// device unchanged.
///
/// `left` is what the disk of the store's log has after a crash: a prefix of what was written, with all that was synced.
/// `started` is the log of another store, which has the same tenants, after its start from these bytes. That store has the
/// state that the first one had after some first steps of its one history: after all steps that the desk knows to be durable,
/// and after no step that was not made.
///
/// A reply is sent only if each own step of its desk that the policy promises is known to be durable (`ReplyGuard` of
/// `store_server`). `Store::compare` states that the histories of all desks are one.
pub fn reveal_restart<W: Wait, S: Naming, D: Disk, T: Naming, E: Disk>(
    rt: &W,
    store: &Store<S>,
    idle: IdleDevice<Step, StoreLog<S>, D>,
    desk: &mut Desk<S>,
    left: &[u8],
    started: &StartedLog<T, E>,
) -> IdleDevice<Step, StoreLog<S>, D>
    requires synced { IsPrefix idle.durable left.now }
    requires written { IsPrefix left.now idle.written }
    requires read { started.now.device.written ≡ left.now }
    requires settings { HaveLogs S.names T.names }
    ensures same { result ≡ idle }
    ensures sees { SeesStoreHistory S.names desk.old desk.new }
    ensures restarts { RestartsAs S.names desk.new.trace T.names started.now.desk.trace }
{
    started.reveal_start();
    store.reveal_survivors(rt, idle, desk, left)
}
