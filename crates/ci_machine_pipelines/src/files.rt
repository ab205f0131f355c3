//! A project's file is to be a text; and faults of files, as replies name them.

ghost use Rattle.std.specs.Prelude.{◌≡◌, IfOk, Ok, length};
ghost use Rattle.ci_config.specs.Prelude.{value_view};
ghost use Rattle.ci_graph_layout.specs.Prelude.{Config, code_view};
ghost use Rattle.ci_machine_steps.specs.Files as files;
ghost use Rattle.ci_machine_pipelines.specs.Readings.{yaml_fault, Shows, Counts, CountsTree};

use ci_config::{ConfigCode, ConfigFault};
use ci_config_reader::config;
use ci_expr::ExprCode;
use ci_machine::change::{Changes, Record, RowChange};
use ci_machine::records::Project;
use ci_machine::reply::{Body, Detail, FaultCode, Reply};
use ci_machine::text::Text;
use ci_machine_plans::body;
use ci_machine_plans::replies::{faulted, fine, only};
use ci_yaml::{Code as LineCode, Tree, YamlFault, read};
use std::alloc::{AllocError, Global};

/// Why a file isn't taken.
#[derive(Drop)]
pub enum FileFault {
    /// Memory was refused.
    Memory,
    /// The first fault of the file.
    Fault(Detail),
}

impl From<AllocError> for FileFault {
    ghost from_gives = { λ _ fault. fault ≡ Memory };

    ghost use Rattle.ci_machine_pipelines.specs.declared.files.FileFault.TheVariants.{Memory};

    fn from(_refused: AllocError) -> FileFault {
        FileFault::Memory
    }
}

/// A fault of lines: `Y5 line 3`.
fn line_detail(code: LineCode, line: usize) -> Detail
    ensures { result ≡ files.line_fault code line }
{
    Detail::Line(FaultCode::Y(code.number()), line as u64)
}

fn expression_number(code: ExprCode) -> u8
    ensures { result ≡ files.expression_number code }
{
    match code {
        ExprCode::X1 => 1,
        ExprCode::X2 => 2,
        ExprCode::X3 => 3,
        ExprCode::X4 => 4,
        ExprCode::X5 => 5,
        ExprCode::X6 => 6,
        ExprCode::X7 => 7,
        ExprCode::X8 => 8,
    }
}

/// A fault of keywords: `K6`, `K2 image`, `K13 X4`.
fn keyword_detail(alloc: Global, code: ConfigCode) -> Result<Detail, AllocError>
    ensures { IfOk result (λ d. d ≡ files.keyword_fault (code_view code)) }
{
    match code {
        ConfigCode::K2(name) => {
            let name = Text::copy_of(alloc, name)?;
            Ok(Detail::Keyword(FaultCode::K(2), name))
        }
        ConfigCode::K13(code) => {
            let inner = FaultCode::X(expression_number(code));
            Ok(Detail::Expression(FaultCode::K(13), inner))
        }
        other => Ok(Detail::Code(FaultCode::K(other.number()))),
    }
}

/// Why a text has no tree.
pub(crate) fn yaml_fault(fault: YamlFault) -> FileFault
    ensures { result ≡ yaml_fault fault }
{
    match fault {
        YamlFault::Memory => FileFault::Memory,
        YamlFault::Fault(code, line) => FileFault::Fault(line_detail(code, line)),
    }
}

/// Why a tree configures nothing.
pub(crate) fn config_fault(alloc: Global, fault: ConfigFault) -> FileFault
    ensures { Shows result fault }
{
    match fault {
        ConfigFault::Memory => FileFault::Memory,
        ConfigFault::Fault(code) => match keyword_detail(alloc, code) {
            Ok(detail) => FileFault::Fault(detail),
            Err(_) => FileFault::Memory,
        },
    }
}

/// How many jobs that a text configures aren't hidden. Errors: memory was refused, or the first fault of the text.
pub fn jobs_in(alloc: Global, text: &str) -> Result<usize, FileFault>
    ensures { Counts text.now result }
{
    match read(alloc, text) {
        Ok(tree) => jobs_of_tree(alloc, &tree),
        Err(fault) => Err(yaml_fault(fault)),
    }
}

/// How many jobs that a tree configures aren't hidden.
fn jobs_of_tree(alloc: Global, tree: &Tree) -> Result<usize, FileFault>
    ensures { CountsTree (value_view tree.now) result }
{
    match config(alloc, tree) {
        Ok(config) => Ok(config.jobs.len()),
        Err(fault) => Err(config_fault(alloc, fault)),
    }
}

/// The file of the project that was asked for is to be this text. The reply (200) tells how many of its jobs aren't hidden.
///
/// Refusals: M14 with the first fault of the text, of its lines or its keywords.
pub fn set_file(
    alloc: Global,
    project: &Project,
    text: Text,
) -> Result<(Reply, Changes), AllocError>
    ensures { IfOk result (λ plan. files.SetsFile (Ok project.now) text plan) }
{
    match jobs_in(alloc, text.as_str()) {
        Ok(count) => put_file(alloc, project, text, count),
        Err(FileFault::Memory) => Err(AllocError),
        Err(FileFault::Fault(detail)) => faulted(alloc, &detail),
    }
}

/// The project has this text for its file; so many of the text's jobs aren't hidden.
fn put_file(
    alloc: Global,
    project: &Project,
    text: Text,
    count: usize,
) -> Result<(Reply, Changes), AllocError>
    ensures { (c : Config) → count ≡ length c.jobs → IfOk result (λ plan. plan ≡ files.file_set project.now text c) }
{
    let reply = fine(Body::Json(body::file(alloc, count)?));
    let filed = Project {
        id: project.id,
        name: project.name.clone()?,
        token: project.token.clone()?,
        file: Some(text),
    };
    let changes = only(alloc, RowChange::Put(Record::Project(filed)))?;
    Ok((reply, changes))
}
