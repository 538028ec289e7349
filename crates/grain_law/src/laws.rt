//! The laws, as contracts of functions that do nothing.

ghost use Rattle.grain_law.specs.Laws.{SafeIsSafeInFineSteps, SafeInFineStepsIsSafe, StepsAreFineSteps, RunsAreFineRuns, FineRunsAreRuns, ConditionsMeanSafeInFineSteps};
ghost use Rattle.grain_law.specs.Samples.{SharedIsSafeInFineSteps, EqualityIsSafeInFineSteps};

/// A program is safe in fine steps exactly where it is safe: reads that others come between make no difference.
pub fn safe_in_fine_steps()
    ensures suffices { SafeIsSafeInFineSteps }
    ensures back { SafeInFineStepsIsSafe }
{}

/// What the machine does is done in fine steps, step by step and run by run, of any program from any state.
pub fn machine_in_fine_steps()
    ensures steps { StepsAreFineSteps }
    ensures runs { RunsAreFineRuns }
{}

/// In fine steps a safe program comes to the states of the machine's runs, and to no others.
pub fn fine_runs_are_runs()
    ensures states { FineRunsAreRuns }
{}

/// A program whose conditions are all valid is safe in fine steps.
pub fn conditions_mean_safe_in_fine_steps()
    ensures conditions { ConditionsMeanSafeInFineSteps }
{}

/// The premises are met by safe programs; one of them reads two fields in one expression.
pub fn premises_are_met()
    ensures shared { SharedIsSafeInFineSteps }
    ensures equality { EqualityIsSafeInFineSteps }
{}
