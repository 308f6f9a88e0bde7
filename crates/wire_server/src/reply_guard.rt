//! The trait of a guard of replies.
ghost use Rattle.std.specs.Prelude.{◌≡◌, false, true};
ghost use Rattle.wire_server.specs.Guards.{KeepsActs};

use store_api::Backend;

/// A guard of the replies of a connection. It makes the effects of requests durable before their replies are written.
///
/// Each implementation chooses the property `durable` of a backend: all that the backend promised is durable. `serve` writes
/// a reply only on a backend with this property.
///
/// A request that leaves the backend unchanged leaves it durable. `commit` then changes nothing and need not wait. Such
/// requests are queries, reads of a lease, give-backs, and requests with a refused field.
pub trait ReplyGuard<B: Backend> {
    // All that the backend promised is durable.
    ghost durable: { B → Type 0 };

    // The log of the guard failed.
    ghost log_failed: { Self → Type 0 } = { λ _. Unit {0} };

    /// Makes durable all that the backend promised. Returns `false` if the log failed: then no reply may be written any more.
    fn commit(&mut self, backend: &mut B) -> bool
        ensures durable { result ≡ true → durable backend.new }
        ensures failed { result ≡ false → log_failed self.new }
        ensures acts { KeepsActs B.acts backend.old backend.new }
        ensures same { durable backend.old → backend.new ≡ backend.old };
}

/// The guard of a store in memory, which promises nothing: every backend counts as durable, and a commit does nothing and
/// never fails.
#[derive(Drop)]
pub struct NoLog;

impl<B: Backend> ReplyGuard<B> for NoLog {
    ghost durable = { λ _. Unit {0} };

    ghost log_failed = { λ _. ⊥ };

    fn commit(&mut self, _backend: &mut B) -> bool {
        true
    }
}
