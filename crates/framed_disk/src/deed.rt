//! The frames that were written, and the syncs. These values exist in the proof alone.

ghost use Rattle.std.specs.Prelude.{◌≡◌, ◌∷◌, [], Some, None};
ghost use Rattle.ghost_log.specs.Calls.{with_entry};
ghost use Rattle.log_frames.specs.Frames.{frame_of};

use ghost_log::{Event, SharedLog, Writer};
use std::marker::{Brand, Model, PhantomData};

/// A call on a framed disk: frames were added, or all frames were synced. At run time there are no values of it.
pub struct FrameDeed {
    none: (),
}

impl Model for FrameDeed {
    ghost use Rattle.std.specs.Prelude.{List, Option, None};
    ghost use Rattle.log_frames.specs.Frames.{Frame};

    ghost Value = { Option (List Frame) };

    ghost view = { λ _. None };
}

/// A type that names frames.
pub trait FramesName {
    ghost use Rattle.std.specs.Prelude.{List};
    ghost use Rattle.log_frames.specs.Frames.{Frame};

    ghost frames: { List Frame };
}

impl FramesName for Brand {
    ghost use Rattle.std.specs.Prelude.{[]};

    ghost frames = { [] };
}

/// No frames.
pub struct NoFrames;

impl FramesName for NoFrames {
    ghost use Rattle.std.specs.Prelude.{[]};

    ghost frames = { [] };
}

/// The deed that the frames which `P` names were added.
pub struct Adds<P> {
    of: PhantomData<P>,
}

impl<P: FramesName> Event<FrameDeed> for Adds<P> {
    ghost use Rattle.std.specs.Prelude.{Some};

    ghost event = { Some P.frames };
}

/// The deed that all frames were synced.
pub struct Syncs;

impl Event<FrameDeed> for Syncs {
    ghost use Rattle.std.specs.Prelude.{None};

    ghost event = { None };
}

/// Adds the deed that the frames which `P` names were added.
pub fn add_named<P: FramesName>(log: &mut SharedLog<FrameDeed>, writer: &mut Writer<FrameDeed>)
    requires { writer.old.name ≡ log.old.name }
    ensures log { log.new ≡ with_entry writer.old.number (Some P.frames) log.old }
    ensures writer { writer.new.name ≡ writer.old.name }
{
    log.append::<Adds<P>>(writer);
}

// The frame is picked in the proof alone.
fn add_frame_as<P: FramesName>(
    log: &mut SharedLog<FrameDeed>,
    writer: &mut Writer<FrameDeed>,
    synced: u64,
    payload: &[u8],
)
    requires frames { P.frames ≡ frame_of synced payload.now ∷ [] }
    requires name { writer.old.name ≡ log.old.name }
    ensures log { log.new ≡ with_entry writer.old.number (Some P.frames) log.old }
    ensures writer { writer.new.name ≡ writer.old.name }
{
    let _ = synced;
    let _ = payload;
    add_named::<P>(log, writer);
}

/// Adds the deed that the frame with this payload, which states this synced offset, was added.
pub fn add_frame(
    log: &mut SharedLog<FrameDeed>,
    writer: &mut Writer<FrameDeed>,
    synced: u64,
    payload: &[u8],
)
    requires { writer.old.name ≡ log.old.name }
    ensures log { log.new ≡ with_entry writer.old.number (Some (frame_of synced payload.now
        ∷ [])) log.old }
    ensures writer { writer.new.name ≡ writer.old.name }
{
    add_frame_as::<Brand>(log, writer, synced, payload);
}
