//! Tests of what is said of a CI file: where a reader or a writer fails, and before a pipeline is made of it.

mod plans;
mod verdicts;
