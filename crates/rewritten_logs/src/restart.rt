//! What a start after a crash restores whose log was rewritten.

ghost use Rattle.std.specs.Prelude.{◌≡◌, ◌++◌};
ghost use Rattle.ghost_log.specs.Entries.{IsPrefix};
ghost use Rattle.locked_book.specs.Restoring.{SeesStoreHistory};
ghost use Rattle.rewritten_logs.specs.Restarts.{RestartsRewritten};
ghost use Rattle.rewritten_logs.specs.Rewritten.{IsReplacedBy, names_in};
ghost use Rattle.store_replay.specs.Restarts.{HaveLogs};

use blob_store::{Desk, Naming, StartedLog, Store};
use durable_log::IdleDevice;
use locked_book::{Step, StoreLog};
use log_disk::Disk;
use std::sync::Wait;

/// Lets a desk of a store see the store's whole history, and states what a start after a crash restores of it if closed files of
/// the log were rewritten while the store was served. Returns the device unchanged.
///
/// `left` is what the disk of the store's log has after a crash: a prefix of what was written, with all that was synced. It begins with
/// `written`, which `base` replaces: it leaves the same state, and so did each base before it (`LogReading::leaves_same_state` of
/// `log_state`). `started` is the log of another store, which has the same tenants, after its start from `base` and `rest`. That store
/// has the state that the first one had after some first steps of its one history, up to the notes of contents: after all steps
/// that the desk knows to be durable, and after no step that was not made.
pub fn reveal_rewritten_restart<W: Wait, S: Naming, D: Disk, T: Naming, E: Disk>(
    rt: &W,
    store: &Store<S>,
    idle: IdleDevice<Step, StoreLog<S>, D>,
    desk: &mut Desk<S>,
    left: &[u8],
    written: &[u8],
    base: &[u8],
    rest: &[u8],
    started: &StartedLog<T, E>,
) -> IdleDevice<Step, StoreLog<S>, D>
    requires synced { IsPrefix idle.durable left.now }
    requires written { IsPrefix left.now idle.written }
    requires split { left.now ≡ written.now ++ rest.now }
    requires replaced { IsReplacedBy (names_in S.names.setting.tenants) written.now base.now }
    requires read { started.now.device.written ≡ base.now ++ rest.now }
    requires settings { HaveLogs S.names T.names }
    ensures same { result ≡ idle }
    ensures sees { SeesStoreHistory S.names desk.old desk.new }
    ensures restarts { RestartsRewritten S.names desk.new.trace left.now
        T.names started.now.desk.trace }
{
    let _ = written;
    let _ = base;
    let _ = rest;
    started.reveal_start();
    store.reveal_survivors(rt, idle, desk, left)
}
