//! What a pipeline of a CI file would be.

use ci_cli_words::line::{Line, say};
use ci_cli_words::task::PlanOptions;
use ci_machine::request::{NewPipeline, PipelineVariable};
use ci_machine::text::Text;
use ci_plan::{exit_status, plan_word};
use ci_values::items::Items;
use std::alloc::{AllocError, Global};
use std::io::{Read, Write};

/// The number of the project that a pipeline is planned for: it has no other variables than this (`CI_PROJECT_ID`).
const PROJECT: u64 = 1;

/// Prints what a pipeline of a CI file would be, and gives the exit status: 0 where there would be one, 1 where the file or its jobs make none,
/// 3 where it can't be read.
pub fn plan<I: Read + Drop, O: Write>(
    rt: &HostRuntime,
    options: &PlanOptions<'_>,
    input: I,
    output: &mut O,
) -> u8 {
    match asked(rt.alloc(), options) {
        Ok(asked) => exit_status(&plan_word(rt, rt.alloc(), options.file, &asked, input, output)),
        Err(_) => say(output, Line::NoMemory),
    }
}

/// The pipeline that is asked for. Errors: memory was refused.
fn asked(alloc: Global, options: &PlanOptions<'_>) -> Result<NewPipeline, AllocError> {
    let token = Text::copy_of(alloc, "")?;
    let git_ref = Text::copy_of(alloc, options.git_ref)?;
    let variables = variables_of(alloc, options)?;
    Ok(NewPipeline {
        project: PROJECT,
        token,
        git_ref,
        kind: options.kind,
        source: options.source,
        variables: Items::new(variables),
    })
}

fn variables_of(
    alloc: Global,
    options: &PlanOptions<'_>,
) -> Result<Vec<PipelineVariable>, AllocError> {
    let mut variables = Vec::new(alloc);
    for (key, value) in &options.variables {
        variables.push(variable_of(alloc, key, value)?)?;
    }
    Ok(variables)
}

fn variable_of(alloc: Global, key: &str, value: &str) -> Result<PipelineVariable, AllocError> {
    let key = Text::copy_of(alloc, key)?;
    let value = Text::copy_of(alloc, value)?;
    Ok(PipelineVariable { key, value })
}
