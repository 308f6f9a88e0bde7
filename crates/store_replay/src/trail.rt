//! The frames that were read. These values exist in the proof alone.

ghost use Rattle.std.specs.Prelude.{◌≡◌, ◌∷◌, ◌++◌, [], IfOk};
ghost use Rattle.ghost_log.specs.Calls.{with_entry};
ghost use Rattle.log_frames.specs.Frames.{frame_of};

use ghost_log::{Event, SharedLog, Writer};
use std::alloc::{AllocError, Global};
use std::marker::{Brand, Model, PhantomData};

/// A frame that was read. At run time there are no values of it.
pub struct ReadFrame {
    none: (),
}

impl Model for ReadFrame {
    ghost use Rattle.std.specs.Prelude.{[]};
    ghost use Rattle.log_frames.specs.Frames.{Frame, frame_of};

    ghost Value = { Frame };

    ghost view = { λ _. frame_of 0 [] };
}

/// A type that names a frame.
pub trait FrameName {
    ghost use Rattle.log_frames.specs.Frames.{Frame};

    ghost frame: { Frame };
}

impl FrameName for Brand {
    ghost use Rattle.std.specs.Prelude.{[]};
    ghost use Rattle.log_frames.specs.Frames.{frame_of};

    ghost frame = { frame_of 0 [] };
}

/// The event that the frame which `P` names was read.
struct Reads<P> {
    of: PhantomData<P>,
}

impl<P: FrameName> Event<ReadFrame> for Reads<P> {
    ghost event = { P.frame };
}

// The frame is picked in the proof alone.
fn add_as<P: FrameName>(
    log: &mut SharedLog<ReadFrame>,
    writer: &mut Writer<ReadFrame>,
    synced: u64,
    payload: &[u8],
)
    requires frame { P.frame ≡ frame_of synced payload.now }
    requires name { writer.old.name ≡ log.old.name }
    ensures log { log.new ≡ with_entry writer.old.number P.frame log.old }
    ensures writer { writer.new.name ≡ writer.old.name }
{
    let _ = synced;
    let _ = payload;
    log.append::<Reads<P>>(writer);
}

/// Adds the frame with this payload, which states this synced offset.
fn add(log: &mut SharedLog<ReadFrame>, writer: &mut Writer<ReadFrame>, synced: u64, payload: &[u8])
    requires { writer.old.name ≡ log.old.name }
    ensures log { log.new ≡ with_entry writer.old.number (frame_of synced payload.now) log.old }
    ensures writer { writer.new.name ≡ writer.old.name }
{
    add_as::<Brand>(log, writer, synced, payload);
}

/// The frames that were read, in order. At run time it has no content.
#[derive(Drop)]
pub(crate) struct FrameTrail {
    frames: SharedLog<ReadFrame>,
    writer: Writer<ReadFrame>,
}

impl Model for FrameTrail {
    ghost use Rattle.std.specs.Prelude.{◌≡◌, List};
    ghost use Rattle.log_frames.specs.Frames.{Frame};
    ghost use Rattle.store_replay.specs.Trails.{events_of};

    ghost Value = { List Frame };

    ghost view = { λ t. events_of t.frames.entries };

    ghost invariant = { λ t. t.writer.name ≡ t.frames.name };
}

impl FrameTrail {
    /// Creates a trail of no frame.
    pub fn new(alloc: Global) -> Result<FrameTrail, AllocError>
        ensures { IfOk result (λ t. t ≡ []) }
    {
        let mut frames = SharedLog::new(alloc)?;
        let writer = frames.writer();
        Ok(FrameTrail { frames, writer })
    }

    /// Adds a frame with this payload, which states this synced offset.
    pub fn add(&mut self, synced: u64, payload: &[u8])
        ensures { self.new ≡ self.old ++ frame_of synced payload.now ∷ [] }
    {
        add(&mut self.frames, &mut self.writer, synced, payload);
    }
}
