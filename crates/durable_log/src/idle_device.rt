//! A device between calls, alone or shared by several committing threads.

ghost use Rattle.std.specs.Prelude.{◌≡◌, [], false, OnOk, OnErr};
ghost use Rattle.ghost_log.specs.Entries.{IsPrefix};
ghost use Rattle.durable_log.specs.Views.{Confirms, Waits};

use crate::backlog::Backlog;
use crate::commit_error::CommitError;
use crate::device::LogDevice;
use crate::leader_cell::LeaderCell;
use crate::names::Naming;
use crate::writer::LogWriter;
use log_disk::Disk;
use std::marker::Model;
use std::sync::{Mutex, Wait};

/// A device with an empty buffer.
#[derive(Drop)]
pub struct IdleDevice<E, N: Naming<E>, D: Disk> {
    device: LogDevice<E, N, D>,
}

impl<E, N: Naming<E>, D: Disk> Model for IdleDevice<E, N, D> {
    ghost use Rattle.std.specs.Prelude.{◌≡◌, []};
    ghost use Rattle.durable_log.specs.Views.{DeviceView};

    ghost Value = { DeviceView E };

    ghost view = { λ d. d.device };

    ghost invariant = { λ d. d.device.buffer ≡ [] };
}

impl<E, N: Naming<E>, D: Disk> IdleDevice<E, N, D> {
    /// Creates an idle device.
    pub fn new(device: LogDevice<E, N, D>) -> IdleDevice<E, N, D>
        requires { device.buffer ≡ [] }
        ensures { result ≡ device }
    {
        IdleDevice { device }
    }

    /// Returns the device.
    pub fn into_device(self) -> LogDevice<E, N, D>
        ensures { result ≡ self }
    {
        let IdleDevice { device } = self;
        device
    }

    /// Returns the disk.
    pub fn disk(&self) -> &D
        ensures written { D.written result.now ≡ (self.now).written }
        ensures synced { D.synced result.now ≡ (self.now).durable }
    {
        self.device.disk()
    }

    /// Returns the disk.
    pub fn into_disk(self) -> D
        ensures { (D.written result ≡ self.written) × (D.synced result ≡ self.durable) }
    {
        let IdleDevice { device } = self;
        device.into_disk()
    }

    /// Replaces the disk by another one that has the same bytes, of which the same are durable. The old one is dropped.
    pub fn replace_disk<D2: Disk>(self, disk: D2) -> IdleDevice<E, N, D2>
        requires written { D2.written disk ≡ self.written }
        requires synced { D2.synced disk ≡ self.durable }
        ensures { result ≡ self }
    {
        let IdleDevice { device } = self;
        IdleDevice {
            device: device.replace_disk(disk),
        }
    }

    /// Returns once all that the writer has seen is durable.
    ///
    /// The lock of the backlog is held twice for a short time, and not while the disk is written or synced.
    ///
    /// # Errors
    ///
    /// - `Disk`: a call on the disk fails or has failed. The backlog is then closed.
    /// - `Closed`: the log does not record.
    pub fn commit(
        &mut self,
        rt: &impl Wait,
        backlog: &Mutex<Backlog<E, N>>,
        writer: &mut LogWriter<E, N>,
    ) -> Result<(), CommitError>
        ensures waits { Waits writer.old writer.new }
        ensures ok { OnOk result (Confirms N.promises writer.old writer.new) }
        ensures err { OnErr result (writer.new.durable ≡ writer.old.durable) }
    {
        if let Err(error) = self.device.check() {
            return Err(CommitError::Disk(error));
        }
        let done = self.device.confirm_or_take(&mut *backlog.lock(rt), writer)?;
        if done {
            return Ok(());
        }
        if let Err(error) = self.device.write_and_sync() {
            backlog.lock(rt).close();
            return Err(CommitError::Disk(error));
        }
        self.device.publish(&mut *backlog.lock(rt), writer);
        Ok(())
    }

    /// Writes the pending bytes, without a sync. No writer then knows more to be durable.
    ///
    /// # Errors
    ///
    /// - `Disk`: a call on the disk fails or has failed. The backlog is then closed.
    /// - `Closed`: the log does not record.
    pub fn flush(
        &mut self,
        rt: &impl Wait,
        backlog: &Mutex<Backlog<E, N>>,
    ) -> Result<(), CommitError>
        ensures durable { self.new.durable ≡ self.old.durable }
        ensures ok { OnOk result (self.new.failed ≡ false) }
    {
        if let Err(error) = self.device.check() {
            return Err(CommitError::Disk(error));
        }
        let taken = self.device.take_over(&mut *backlog.lock(rt));
        if !taken {
            return Err(CommitError::Closed);
        }
        if let Err(error) = self.device.write() {
            backlog.lock(rt).close();
            return Err(CommitError::Disk(error));
        }
        Ok(())
    }
}

impl<E, N: Naming<E>, D: Disk> LeaderCell<IdleDevice<E, N, D>> {
    /// Returns once all that the writer has seen is durable.
    ///
    /// A thread that finds the device in the cell is the leader: it takes the device out, and writes and syncs for all
    /// threads. The other threads wait until the device is put back, and look again.
    ///
    /// # Errors
    ///
    /// - `Disk`: a call on the disk fails or has failed. The backlog is then closed.
    /// - `Closed`: the log does not record.
    pub fn commit(
        &self,
        rt: &impl Wait,
        backlog: &Mutex<Backlog<E, N>>,
        writer: &mut LogWriter<E, N>,
    ) -> Result<(), CommitError>
        ensures waits { Waits writer.old writer.new }
        ensures ok { OnOk result (Confirms N.promises writer.old writer.new) }
        ensures err { OnErr result (writer.new.durable ≡ writer.old.durable) }
    {
        for _ in rt.forever() {
            if backlog.lock(rt).confirm(writer) {
                return Ok(());
            }
            if let Some(mut device) = self.take_or_wait(rt) {
                let done = device.commit(rt, backlog, writer);
                self.put_back(rt, device);
                return done;
            }
        }
        Err(CommitError::Closed)
    }

    /// Writes the pending bytes, without a sync. No writer then knows more to be durable.
    ///
    /// # Errors
    ///
    /// - `Disk`: a call on the disk fails or has failed. The backlog is then closed.
    /// - `Closed`: the log does not record.
    pub fn flush(&self, rt: &impl Wait, backlog: &Mutex<Backlog<E, N>>) -> Result<(), CommitError> {
        for _ in rt.forever() {
            let Some(mut device) = self.take_at_once_or_wait(rt) else {
                continue;
            };
            let done = device.flush(rt, backlog);
            self.put_back(rt, device);
            return done;
        }
        Err(CommitError::Closed)
    }
}
