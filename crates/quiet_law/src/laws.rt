//! The laws, as contracts of functions that do nothing.

ghost use Rattle.method.specs.LocalRuns.{LazyRunsSuffice};
ghost use Rattle.quiet_law.specs.Laws.{RelyKeepsOwn, RelyThenFrame, ReadsAreQuiet};

/// Other threads leave a thread's mutable objects and its stable set as they are.
pub fn rely_keeps_own()
    ensures { RelyKeepsOwn }
{}

/// What other threads do before a call or a loop may be part of its frame.
pub fn rely_then_frame()
    ensures { RelyThenFrame }
{}

/// An expression of code passes the same checks, and has the same value, before and after what other threads do.
pub fn reads_are_quiet()
    ensures { ReadsAreQuiet }
{}

/// A check that no lazy run fails, no local run fails.
pub fn lazy_runs_suffice()
    ensures { LazyRunsSuffice }
{}
