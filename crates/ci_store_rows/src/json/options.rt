//! What was fixed of a job.

ghost use Rattle.std.specs.Prelude.{◌≡◌, IfOk, OnOk, Some, string_bytes};
ghost use Rattle.serde_json.specs.Read.{read};
ghost use Rattle.serde_json.specs.View.{view};
ghost use Rattle.ci_store.specs.Prelude.{JobOptions};
ghost use Rattle.ci_store_rows.specs.Reads.{ReadsSpec, ReadsDemand};
ghost use Rattle.ci_store_rows.specs.JsonText.{group_data, spec_data, spec_text};

use crate::json::causes::retry_value;
use crate::json::lists::{flag_of, member, number_of, parsed, text_of, texts_of, texts_value};
use crate::json::part::{allow_value, part_of, when_text};
use ci_machine::records::{Demand, JobOptions};
use ci_machine::text::Text;
use ci_store::fault::StoreFault;
use serde_json::{Map, Value, put};
use std::alloc::{AllocError, Global};

fn group_value(alloc: Global, group: &Option<Text>) -> Result<Value, AllocError>
    ensures { IfOk result (λ v. view v ≡ group_data group.now) }
{
    match group {
        Some(name) => Value::try_from_str(alloc, name.as_str()),
        None => Ok(Value::Null),
    }
}

fn group_of(alloc: Global, value: &Value) -> Result<Option<Text>, StoreFault>
    ensures { IfOk result (λ group. view value.now ≡ group_data group) }
{
    if value.is_null() {
        return Ok(None);
    }
    Ok(Some(text_of(alloc, value)?))
}

fn spec_value(alloc: Global, spec: &JobOptions) -> Result<Value, AllocError>
    ensures { IfOk result (λ v. view v ≡ spec_data spec.now) }
{
    let allow_failure = allow_value(alloc, &spec.part.allow_failure)?;
    let group = group_value(alloc, &spec.resource_group)?;
    let retry = retry_value(alloc, spec.part.retry)?;
    let script = texts_value(alloc, &spec.script)?;
    let tags = texts_value(alloc, &spec.tags)?;
    let when = Value::try_from_str(alloc, when_text(spec.part.when))?;
    let mut members = Map::new(alloc);
    put(&mut members, alloc, "allow_failure", allow_failure)?;
    put(
        &mut members,
        alloc,
        "interruptible",
        Value::from(spec.interruptible),
    )?;
    put(
        &mut members,
        alloc,
        "needs",
        Value::from(spec.part.gives_needs),
    )?;
    put(&mut members, alloc, "resource_group", group)?;
    put(&mut members, alloc, "retry", retry)?;
    put(&mut members, alloc, "script", script)?;
    put(&mut members, alloc, "tags", tags)?;
    put(&mut members, alloc, "timeout", Value::from(spec.timeout))?;
    put(&mut members, alloc, "when", when)?;
    Ok(Value::Object(members))
}

/// The JSON object of what was fixed of a job. Errors: memory was refused.
pub fn spec_text(alloc: Global, spec: &JobOptions) -> Result<String, AllocError>
    ensures text { IfOk result (λ t. string_bytes t ≡ spec_text spec.now) }
    ensures reads_back { OnOk result (read (spec_text spec.now) ≡ Some (spec_data spec.now)) }
{
    let value = spec_value(alloc, spec)?;
    value.to_string(alloc)
}

fn spec_of(alloc: Global, value: &Value) -> Result<JobOptions, StoreFault>
    ensures { IfOk result (λ spec. (other : JobOptions) → view value.now ≡ spec_data other → spec ≡ other) }
{
    let timeout = number_of(member(value, "timeout")?)?;
    let interruptible = flag_of(member(value, "interruptible")?)?;
    let part = part_of(alloc, value)?;
    let script = texts_of(alloc, member(value, "script")?)?;
    let tags = texts_of(alloc, member(value, "tags")?)?;
    let resource_group = group_of(alloc, member(value, "resource_group")?)?;
    Ok(JobOptions {
        script,
        timeout,
        tags,
        resource_group,
        interruptible,
        part,
    })
}

/// What was fixed of a job, of its JSON object. Errors: memory was refused, or the text is no such object.
pub fn read_spec(alloc: Global, text: &str) -> Result<JobOptions, StoreFault>
    ensures { IfOk result (ReadsSpec text.now) }
{
    let value = parsed(alloc, text)?;
    spec_of(alloc, &value)
}

fn demand_of(alloc: Global, job: u64, pipeline: u64, value: &Value) -> Result<Demand, StoreFault>
    ensures numbers { IfOk result (λ demand. (demand.job ≡ job) × (demand.pipeline ≡ pipeline)) }
    ensures asks { IfOk result (λ demand. (other : JobOptions) → view value.now ≡ spec_data other → (demand.tags ≡ other.tags) × (demand.resource_group ≡ other.resource_group)) }
{
    let tags = texts_of(alloc, member(value, "tags")?)?;
    let resource_group = group_of(alloc, member(value, "resource_group")?)?;
    Ok(Demand {
        job,
        pipeline,
        tags,
        resource_group,
    })
}

/// What a job of a pipeline asks of a runner, of the JSON object of what was fixed of it. Errors: memory was refused, or the
/// text is no object with tags and a resource group.
pub fn read_demand(alloc: Global, job: u64, pipeline: u64, text: &str) -> Result<Demand, StoreFault>
    ensures numbers { IfOk result (λ demand. (demand.job ≡ job) × (demand.pipeline ≡ pipeline)) }
    ensures reads { IfOk result (ReadsDemand text.now) }
{
    let value = parsed(alloc, text)?;
    demand_of(alloc, job, pipeline, &value)
}
