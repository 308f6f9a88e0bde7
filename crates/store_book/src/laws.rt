//! Laws of the definitions, and of books. Each is the contract of a function with an empty body.

ghost use Rattle.std.specs.Prelude.{ℕ};
ghost use Rattle.spec_lib.specs.Texts.{Text};
ghost use Rattle.store_model.specs.Runs.{Bytes, Done, Mounting, Number};
ghost use Rattle.store_model.specs.declared.mount.Mount.{Mount};
ghost use Rattle.store_book.specs.Events.{ChangesAreEvents, ExactChangesAreEvents, ExactReadsAreEvents, LeasesAreEvents, ReadsAreEvents};
ghost use Rattle.store_book.specs.Layers.{UsesMatchCatalog};

pub use store_model::laws::{counts_and_uses, isolation, soundness};

/// States that the running number which a book keeps of a tenant's use equals the use that its catalog defines.
pub fn uses_match_catalog()
    ensures { UsesMatchCatalog }
{}

/// States that each call of a book is an event of a run.
///
/// If the clause of the call holds, the command with the call's reply leads from the catalog before it to the one
/// after it. There is one clause for each form of the calls' clauses and each type of reply.
pub fn calls_are_events()
    ensures numbers { ChangesAreEvents ℕ Number }
    ensures mounts { ChangesAreEvents Mount Mounting }
    ensures digests { ChangesAreEvents Text Bytes }
    ensures exact_numbers { ExactChangesAreEvents ℕ Number }
    ensures removals { ExactChangesAreEvents (Unit {0}) (λ _. Done) }
    ensures manifests { ReadsAreEvents Text Bytes }
    ensures lengths { ExactReadsAreEvents ℕ Number }
    ensures leases { LeasesAreEvents }
{}
