//! States what a rewritten log restores. The theorem is the contract of a function with an empty body.

ghost use Rattle.rewritten_logs.specs.Rewritten.{RewrittenLogsRestart};

/// States what a start restores whose log was rewritten.
///
/// - `restart`: a store whose log begins with a base, in place of the files that it replaces, has the durable state of
///   the store that wrote them after some first steps, up to the notes of contents.
pub fn rewritten_logs()
    ensures restart { RewrittenLogsRestart }
{}
