//! Laws of the bytes of records. Each is the contract of a function that does nothing.
ghost use Rattle.log_records.specs.Laws.{BytesHaveOneNext, ChangesAreReadInOneWay, CutsKeepFirstChanges, ListsAreReadBack, RecordsAreApart, RecordsAreReadBack};

/// A record is read back as its change, and bytes begin with at most one record.
pub fn records()
    ensures read_back { RecordsAreReadBack }
    ensures apart { RecordsAreApart }
    ensures one_next { BytesHaveOneNext }
{}

/// Changes that are encoded one after another are read back as that list, and bytes are read in one way.
pub fn lists()
    ensures read_back { ListsAreReadBack }
    ensures one_way { ChangesAreReadInOneWay }
{}

/// The first bytes of encoded changes are read as the first changes: at least all whose records are complete.
pub fn cuts()
    ensures { CutsKeepFirstChanges }
{}
