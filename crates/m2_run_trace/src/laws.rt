//! What is promised of traces. These functions do nothing: each stands for the law that its contract names.

ghost use Rattle.m2_run_trace.specs.Laws as laws;

/// The run of a trace is one of the scenario's lines, done one after another, as that of `sim` is.
pub fn traces_are_of_runs()
    ensures { laws.TracesAreOfRuns }
{}

/// Where a record is marked, what makes a connect of it due is that where its journal leads.
pub fn marks_are_of_journals()
    ensures { laws.MarksAreOfJournals }
{}
