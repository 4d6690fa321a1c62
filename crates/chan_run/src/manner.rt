//! How each action is answered: a table with a row for each.

ghost use Rattle.std.specs.Prelude.{◌≡◌};
ghost use Rattle.chan_run.specs.Manner.{manner_of};

use chan_args::Action;

/// How an action is answered.
#[derive(Clone, Copy)]
pub(crate) struct Manner {
    /// Whether it judges the open job of the deck's program, and not the deck's own job.
    pub(crate) judges_open: bool,
    /// Whether the hint on a line that is refused comes whether or not the input has a name.
    pub(crate) always_hints: bool,
    /// Whether the limit on places is told whether or not the input has a name.
    pub(crate) tells_limit: bool,
}

/// How an action is answered.
pub(crate) fn manner_of(action: Action) -> Manner
    ensures { result ≡ manner_of action }
{
    let (judges_open, always_hints, tells_limit) = match action {
        Action::Verify => (false, false, false),
        Action::List { .. } => (false, false, false),
        Action::Range { .. } => (false, false, true),
        Action::Why(_) => (false, true, true),
        Action::Needs { .. } => (true, false, true),
        Action::Graph => (false, true, true),
    };
    Manner {
        judges_open,
        always_hints,
        tells_limit,
    }
}
