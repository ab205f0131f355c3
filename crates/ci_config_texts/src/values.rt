//! Durations, and the values of variables.

use crate::lists::{only_text, variables};
use crate::rows::{Part, RowFault};
use ci_config::{ConfigFault, Layers, lookup};
use ci_config_reader::duration;
use std::alloc::Global;

/// How many seconds a duration has, or the code of its fault.
pub fn duration_of(alloc: Global, parts: &[Part]) -> Result<String, RowFault> {
    match duration(only_text(parts)?) {
        Ok(seconds) => Ok(format!(in alloc; "{seconds}")?),
        Err(ConfigFault::Memory) => Err(RowFault::Memory),
        Err(ConfigFault::Fault(code)) => Ok(format!(in alloc; "{code}")?),
    }
}

/// The variables of each layer.
#[derive(Drop)]
struct Given<'a> {
    pipeline: Vec<(&'a str, &'a str)>,
    project: Vec<(&'a str, &'a str)>,
    job: Vec<(&'a str, &'a str)>,
    file: Vec<(&'a str, &'a str)>,
    predefined: Vec<(&'a str, &'a str)>,
}

impl<'a> Given<'a> {
    fn new(alloc: Global) -> Given<'a> {
        Given {
            pipeline: Vec::new(alloc),
            project: Vec::new(alloc),
            job: Vec::new(alloc),
            file: Vec::new(alloc),
            predefined: Vec::new(alloc),
        }
    }

    /// Puts a variable into the layer with this name.
    fn put(&mut self, layer: &str, name: &'a str, value: &'a str) -> Result<(), RowFault> {
        let variable = (name, value);
        match layer {
            "pipeline" => self.pipeline.push(variable)?,
            "project" => self.project.push(variable)?,
            "job" => self.job.push(variable)?,
            "file" => self.file.push(variable)?,
            "predefined" => self.predefined.push(variable)?,
            _ => return Err(RowFault::NotRead),
        }
        Ok(())
    }
}

/// The layers of a row, where a variable is named behind its layer, as `job.A="x"`.
fn layers_of(alloc: Global, parts: &[Part]) -> Result<Given<'_>, RowFault> {
    let mut given = Given::new(alloc);
    let pairs = variables(alloc, parts)?;
    for (key, value) in &pairs {
        let (layer, name) = key.split_once('.').ok_or(RowFault::NotRead)?;
        given.put(layer, name, value)?;
    }
    Ok(given)
}

/// The value of a name in layers, or `none`.
pub fn lookup_of(alloc: Global, parts: &[Part]) -> Result<String, RowFault> {
    let (first, others) = parts.split_first().ok_or(RowFault::NotRead)?;
    let given = layers_of(alloc, others)?;
    let layers = Layers {
        pipeline: &given.pipeline,
        project: &given.project,
        job: &given.job,
        file: &given.file,
        predefined: &given.predefined,
    };
    let name = first.word().ok_or(RowFault::NotRead)?;
    match lookup(&layers, name) {
        Some(value) => Ok(format!(in alloc; "value {value}")?),
        None => Ok(String::from_str(alloc, "none")?),
    }
}
