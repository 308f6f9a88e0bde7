//! States the theorems about the definitions. Each theorem is the contract of a function with an empty body.

ghost use Rattle.store_model.specs.Durable.{LogsAgree, LogsExtend, TornLogsAgree, WholeCommandsReturnHands};
ghost use Rattle.store_model.specs.HistoryIsolation.{
  HistoriesLeaveTheSameText,
  TenantsAreIsolatedInHistories,
};
ghost use Rattle.store_model.specs.Invariant.{CountsAreLinks, ReferencedStays, UsesAreDistinct};
ghost use Rattle.store_model.specs.Lanes.{LanesReturnHands};
ghost use Rattle.store_model.specs.Noninterference.{TenantsAreIsolated, TextsAreTheSame};
ghost use Rattle.store_model.specs.Recovery.{
  NewStoresAgree,
  RewrittenLogsAgree,
  StoresSurviveCrashes,
  StoresRestart,
  StoresRestartWithOtherSettings,
};
ghost use Rattle.store_model.specs.Removals.{RemovalsFreeNames, RemovalsKeepTheRest};
ghost use Rattle.store_model.specs.Replaying.{ChangesHaveReplays, LogsHaveReplays};
ghost use Rattle.store_model.specs.Restarts.{RestartedHistoriesAreRuns, TenantsAreIsolatedFrom};
ghost use Rattle.store_model.specs.Runs.{RunsExist, RunsStaySound};
ghost use Rattle.store_model.specs.Shares.{FullStoresHaveOrphans, SweptStoresAreFullByLeases};
ghost use Rattle.store_model.specs.WholeCommands.{HistoriesAreRuns};

/// States what counts and uses are in every well-formed catalog.
///
/// - `counts`: the count of a digest is the number of links to it.
/// - `uses`: a tenant's use is the total size of the distinct blobs that its repositories contain, plus the bytes that
///   its sessions have received and reserved.
pub fn counts_and_uses()
    ensures counts { CountsAreLinks }
    ensures uses { UsesAreDistinct }
{}

/// States that commands and sweeps keep a catalog sound.
///
/// - `runs`: every run from a sound catalog leads to a sound catalog, also if commands fail. The commands' repository
///   names have at most 255 bytes, as the type `RepoName` ensures.
/// - `exist`: every list of commands and sweeps has a run from every catalog, so `runs` is not vacuous.
/// - `referenced`: in a well-formed catalog, a delete of a blob to which a manifest of the repository refers fails with
///   `Referenced`. The error names the least such manifest.
pub fn soundness()
    ensures runs { RunsStaySound }
    ensures exist { RunsExist }
    ensures referenced { ReferencedStays }
{}

/// States that tenants are isolated from each other (noninterference).
///
/// - `alone`: a tenant's replies, and its view of the catalog at the end, are those of its own commands alone, in a new
///   store where the other tenants have any quotas, shares and limits.
/// - `same_text`: the store's text is the same after two runs in which each tenant makes the same commands in the same
///   order.
///
/// Both hold for every run of commands and sweeps of a new store that meets two premises:
///
/// - No reply to the tenant (for `same_text`: to any tenant) is `StoreFull`, `TooManyReaders` or `Memory`.
/// - No two closes have different contents with the same digest.
pub fn isolation()
    ensures alone { TenantsAreIsolated }
    ensures same_text { TextsAreTheSame }
{}

/// States that linked blobs alone never fill the store for a tenant, if the shares of all tenants together are at most the
/// slots.
///
/// - `full`: if a close or finish fails with `StoreFull` in a sound catalog, some stored blob is linked by no repository, or
///   some slot is retired.
/// - `swept`: directly after a sweep, leases hold some slot, or some slot is retired.
///
/// So other tenants can fill the store only in these two ways: they lease blobs of which they then remove each link, or they
/// store and remove blobs until a slot's generations are used up.
pub fn shares()
    ensures full { FullStoresHaveOrphans }
    ensures swept { SweptStoresAreFullByLeases }
{}

/// States what a removal of a repository does.
///
/// - `frees`: the repository's tenant has one repository less afterwards, and any other tenant as many as before. So the limit
///   of 1,024 repositories leaves room for a new one.
/// - `rest`: nothing else changes in the catalog.
///
/// A removal of a repository that has a link, a manifest or a session fails with `RepoInUse` by the definition.
pub fn removals()
    ensures frees { RemovalsFreeNames }
    ensures rest { RemovalsKeepTheRest }
{}

/// States that tenants are isolated from each other in histories, in which sessions are checked out between two steps.
///
/// - `alone`: a tenant's steps with their replies, and its view of the catalog at the end, are those of its own requests
///   alone, in a new store where the other tenants have any quotas, shares and limits. Its own check-outs are among its
///   steps, so this includes its `Busy` and `Quota` errors.
/// - `same_text`: the store's text is the same after two histories in which each tenant makes the same requests in the
///   same order.
///
/// Both hold for every legal history of a new store that meets the premises of `isolation` and a third one:
///
/// - No command of the tenant (for `same_text`: of any tenant) fails because a counter would reach 2^64.
///
/// The premise about contents then includes those of finishes.
pub fn isolation_of_histories()
    ensures alone { TenantsAreIsolatedInHistories }
    ensures same_text { HistoriesLeaveTheSameText }
{}

/// States that a history free of contention is a run of whole commands and sweeps.
///
/// The run has the same replies and the same catalog at the end. Check-outs are dropped. Each append and close happens
/// when its session is checked in or finished; a failed check-out is its whole append or close.
///
/// The theorem holds for every history from a sound new store that meets these premises:
///
/// - No reply is `Busy` or `Quota`, and no command fails because a counter would reach 2^64.
/// - No session is checked out at the end.
/// - Repository names have at most 255 bytes.
pub fn whole_commands()
    ensures runs { HistoriesAreRuns }
{}

/// States that a log of changes keeps the durable state of a store.
///
/// A step of a history records at most one change, which depends on the step alone. The changes are applied to the
/// durable state of a new store.
///
/// - `agree`: the changes of a legal history give a durable state that agrees with the catalog at the end. Both have
///   the same repositories, links, manifests, session numbers, open sessions and linked contents.
/// - `extend`: a durable state that agrees with a state also agrees after further steps, if it gets their changes.
/// - `torn`: if a log loses its last records, it is the log of the first steps of its history: at least of all steps
///   whose records were kept.
///
/// Each has one premise:
///
/// - A hand that is checked in or finished has the repository and the chunks with which its session was checked out.
///
/// Two clauses state when the premise holds:
///
/// - `whole_commands`: every check-in and finish belongs to an append or close that checked its session out.
/// - `lanes`: each lane returns only the hand that it took last, from a sound catalog with no session checked out.
pub fn durability()
    ensures agree { LogsAgree }
    ensures extend { LogsExtend }
    ensures torn { TornLogsAgree }
    ensures whole_commands { WholeCommandsReturnHands }
    ensures lanes { LanesReturnHands }
{}

/// States that a store can be restored from its durable state, after any crash.
///
/// - `new_store`: the initial durable state agrees with the catalog of a new store.
/// - `restart`: if a durable state agrees with a sound catalog, the restored catalog is sound, agrees with it, and no
///   tenant uses more than before. Neither the slots nor the limit on blobs are lowered.
/// - `other_settings`: a store restarts with other quotas, fewer slots or a lower limit, if its durable state fits them.
/// - `crashes`: a store that opened with a sound catalog and an agreeing durable state restarts after a crash, in which
///   its log may lose its last records. It then has its state after some first steps of the history, as in `torn` of
///   `durability`.
/// - `rewrite`: a rewritten log gives the same durable state, except for contents without a link.
/// - `replay`: the change of a step is made again by one command, in every store that agrees with the durable state
///   before it. The store has the same limit on blobs and, for a close, a slot and no content of another length with the digest.
/// - `replay_log`: the log of a legal history is made again by commands that all succeed, and sweeps, in a new store
///   with the same settings.
///
/// `crashes`, `replay` and `replay_log` have the premise of `durability` and a second one:
///
/// - Repository names have at most 255 bytes, and a chunk that was filled into a hand has the reserved length.
pub fn recovery()
    ensures new_store { NewStoresAgree }
    ensures restart { StoresRestart }
    ensures other_settings { StoresRestartWithOtherSettings }
    ensures crashes { StoresSurviveCrashes }
    ensures rewrite { RewrittenLogsAgree }
    ensures replay { ChangesHaveReplays }
    ensures replay_log { LogsHaveReplays }
{}

/// States the theorems about histories for a restarted store, which opens with any sound catalog.
///
/// - `runs`: `whole_commands`, if no session is checked out at the start. The run begins with that catalog.
/// - `alone`: the clause `alone` of `isolation_of_histories`. The tenant's isolated history begins with that catalog,
///   in which the other tenants have any quotas, shares and limits.
///
/// The premises are those of these two laws. The premise about contents then includes those of the stored blobs.
pub fn restarts()
    ensures runs { RestartedHistoriesAreRuns }
    ensures alone { TenantsAreIsolatedFrom }
{}
