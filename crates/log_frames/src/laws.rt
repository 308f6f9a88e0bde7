//! Laws of the bytes of a log. Each is the contract of a function that does nothing.
ghost use Rattle.log_frames.specs.Laws.{LogsAreUnique, ReadsInOneWay, ReadsPastTheCut, ReadsWhatIsWhole, StartHasSums, TellsDamage, TellsOneByte};

/// Bytes are read in one way, and logs with the same bytes have the same id and the same frames.
pub fn uniqueness()
    ensures one_way { ReadsInOneWay }
    ensures logs { LogsAreUnique }
{}

/// Of the first bytes of a log, the frames are read that are whole, and no others, and what is left is nothing or torn, whether or
/// not other bytes follow. The premises are `AreUnforged` and `CompletesNothing`.
pub fn cuts()
    ensures whole { ReadsWhatIsWhole }
    ensures past { ReadsPastTheCut }
{}

/// One changed byte of a frame ends the reading there. The log is then damaged, if a later head states that the log was synced beyond
/// that frame's place.
pub fn damage()
    ensures one_byte { TellsOneByte }
    ensures told { TellsDamage }
    ensures start { StartHasSums }
{}
