//! The grammar of repository names, read one byte at a time.
ghost use Rattle.std.specs.Prelude.{◌≡◌, ◌↔◌, ◌==◌, IsTrue, not};
ghost use Rattle.std.specs.List.{list_all};
ghost use Rattle.blob_digest.specs.Names.{IsPath, IsComponent, is_alnum};
ghost use Rattle.blob_digest.specs.NameMachine.{is_accepted_from, next_state};
ghost use Rattle.blob_digest.specs.declared.name.State.TheVariants.{Start};

/// The state after the bytes read so far. It decides which bytes may follow.
#[derive(Clone, Copy, PartialEq, Eq)]
enum State {
    /// At the start of a component.
    Start,
    /// After a lower-case letter or a digit: the name may end here.
    InRun,
    /// After a `.`.
    Dot,
    /// After one `_`.
    Underscore,
    /// After two `_`.
    Underscores,
    /// After one or more `-`.
    Dash,
    /// After a byte that no name has at its position.
    Dead,
}

/// Returns whether a byte is a lower-case letter or a digit.
fn is_small(c: u8) -> bool
    ensures { result ≡ is_alnum c }
{
    matches!(c, b'a'..=b'z' | b'0'..=b'9')
}

/// Returns the state after one more byte.
fn step(state: State, c: u8) -> State
    ensures { result ≡ next_state state c }
{
    if is_small(c) {
        return match state {
            State::Dead => State::Dead,
            _ => State::InRun,
        };
    }
    match state {
        State::InRun => match c {
            b'.' => State::Dot,
            b'_' => State::Underscore,
            b'-' => State::Dash,
            b'/' => State::Start,
            _ => State::Dead,
        },
        State::Underscore if c == b'_' => State::Underscores,
        State::Dash if c == b'-' => State::Dash,
        _ => State::Dead,
    }
}

/// Returns whether a name may end after these bytes.
fn reads_path(text: &[u8]) -> bool
    ensures { result ≡ is_accepted_from Start text.now }
{
    let mut state = State::Start;
    for c in text {
        state = step(state, *c);
    }
    matches!(state, State::InRun)
}

/// Returns whether the bytes are components joined by `/`.
pub(crate) fn is_path(text: &[u8]) -> bool
    ensures { IsTrue result ↔ IsPath text.now }
{
    reads_path(text)
}

/// Returns whether no byte is a `/`.
fn has_no_slash(text: &[u8]) -> bool
    ensures { result ≡ list_all (λ b. not (b == 47)) text.now }
{
    text.iter().all(|b| *b != b'/')
}

/// Returns whether the bytes are one component of a repository's name.
///
/// A component is runs of `a-z0-9` joined by `.`, `_`, `__` or one or more `-` (OCI Distribution Specification 1.1,
/// "Pulling manifests"). A tenant's name is one component.
///
/// # Cost
///
/// Each byte is read at most twice.
///
/// # Memory
///
/// The call does not allocate.
pub fn is_component(text: &[u8]) -> bool
    ensures { IsTrue result ↔ IsComponent text.now }
{
    is_path(text) && has_no_slash(text)
}
