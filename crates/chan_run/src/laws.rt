//! What holds of responses, whatever the code does.

ghost use Rattle.chan_run.specs.Response.{OneOutcome};

/// Where memory lasts, an action on a text has one outcome.
fn one_outcome()
    ensures { OneOutcome }
{}
