//! States what a log determines that has notes in place of bytes. The theorem is the contract of a function with an empty body.

ghost use Rattle.noted_logs.specs.Noted.{NotesAreReadBack, NotesDetermine, NotesStep};

/// States what the notes of a log determine.
///
/// - `step`: a change leaves a state whose notes are those that the noted change leaves.
/// - `determine`: two lists of changes with the same notes leave states with the same notes.
/// - `read_back`: the notes of a chunk are read as what a process knows of it that has not read it.
pub fn notes()
    ensures step { NotesStep }
    ensures determine { NotesDetermine }
    ensures read_back { NotesAreReadBack }
{}
