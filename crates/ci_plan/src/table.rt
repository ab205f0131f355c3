//! The text of a plan.

ghost use Rattle.std.specs.Prelude.{◌≡◌, ◌++◌, flat_map, IfOk, OnOk, string_bytes};
ghost use Rattle.ci_plan.specs.TableText.{when_text, rule_text, after_comma, listed, count_line, job_start, job_name, job_line, jobs_text, code_text, unmet_line, later_line, wait_line, circle_lines, idle_line, many_line, fault_lines, fault_text, why_left_out, left_out_line, told, plan_text, note_head, note_body, note_end, note_line, told_text};

use crate::records::{Fault, LeftOut, NamedNeed, Note, Plan, PlannedJob};
use ci_graph_layout::GraphCode;
use ci_machine::text::Text;
use ci_values::items::Items;
use ci_values::when::When;
use std::alloc::{AllocError, Global};

const HEADER: &str = "STAGE        WHEN       RULE JOB                      WAITS FOR\n";

fn when_text(when: When) -> &'static str
    ensures { result.now ≡ when_text when }
{
    match when {
        When::OnSuccess => "on_success",
        When::OnFailure => "on_failure",
        When::Always => "always",
        When::Manual => "manual",
    }
}

fn put_rule(text: &mut String, rule: Option<usize>) -> Result<(), AllocError>
    ensures { OnOk result (string_bytes text.new ≡ string_bytes text.old ++ rule_text rule) }
{
    match rule {
        Some(number) => write!(text, "{number:>4}"),
        None => text.push_str("   -"),
    }
}

/// Puts texts behind another, each behind a comma.
fn put_others(text: &mut String, names: &[Text]) -> Result<(), AllocError>
    ensures { OnOk result (string_bytes text.new ≡ string_bytes text.old ++ flat_map after_comma names.now) }
{
    for name in names {
        text.push_str(", ")?;
        text.push_str(name.as_str())?;
    }
    Ok(())
}

/// Puts texts behind another, with a comma between each two; `-` where there are none.
fn put_list(text: &mut String, names: &[Text]) -> Result<(), AllocError>
    ensures { OnOk result (string_bytes text.new ≡ string_bytes text.old ++ listed names.now) }
{
    match names.split_first() {
        Some((first, others)) => {
            text.push_str(first.as_str())?;
            put_others(text, others)
        }
        None => text.push_str("-"),
    }
}

/// Puts the stage of a job and when it runs behind a text.
#[tactic(auto, unfolding(crate::specs::TableText::job_start))]
fn put_start(text: &mut String, job: &PlannedJob) -> Result<(), AllocError>
    ensures { OnOk result (string_bytes text.new ≡ string_bytes text.old ++ job_start job.now) }
{
    let stage = job.stage.as_str();
    let when = when_text(job.when);
    write!(text, "{stage:<12} {when:<10} ")
}

/// Puts the name of a job behind a text.
#[tactic(auto, unfolding(crate::specs::TableText::job_name))]
fn put_name(text: &mut String, job: &PlannedJob) -> Result<(), AllocError>
    ensures { OnOk result (string_bytes text.new ≡ string_bytes text.old ++ job_name job.now) }
{
    let name = job.name.as_str();
    write!(text, " {name:<24} ")
}

/// Puts the line of a job behind a text.
fn put_job(text: &mut String, job: &PlannedJob) -> Result<(), AllocError>
    ensures { OnOk result (string_bytes text.new ≡ string_bytes text.old ++ job_line job.now) }
{
    put_start(text, job)?;
    put_rule(text, job.rule)?;
    put_name(text, job)?;
    put_list(text, job.waits_for.as_slice())?;
    text.push_str("\n")
}

/// Puts the lines of jobs behind a text.
fn put_each_job(text: &mut String, jobs: &[PlannedJob]) -> Result<(), AllocError>
    ensures { OnOk result (string_bytes text.new ≡ string_bytes text.old ++ flat_map job_line jobs.now) }
{
    for job in jobs {
        put_job(text, job)?;
    }
    Ok(())
}

fn put_count(text: &mut String, jobs: usize) -> Result<(), AllocError>
    ensures { OnOk result (string_bytes text.new ≡ string_bytes text.old ++ count_line jobs) }
{
    writeln!(text, "jobs: {jobs}")
}

/// Puts the table of a pipeline's jobs behind a text, and how many they are.
fn put_jobs(text: &mut String, jobs: &[PlannedJob]) -> Result<(), AllocError>
    ensures { OnOk result (string_bytes text.new ≡ string_bytes text.old ++ jobs_text jobs.now) }
{
    text.push_str(HEADER)?;
    put_each_job(text, jobs)?;
    put_count(text, jobs.len())
}

fn code_text(code: GraphCode) -> &'static str
    ensures { result.now ≡ code_text code }
{
    match code {
        GraphCode::G1 => "G1",
        GraphCode::G2 => "G2",
        GraphCode::G3 => "G3",
        GraphCode::G4 => "G4",
        GraphCode::G5 => "G5",
    }
}

fn put_unmet_line(text: &mut String, one: &NamedNeed) -> Result<(), AllocError>
    ensures { OnOk result (string_bytes text.new ≡ string_bytes text.old ++ unmet_line one.now) }
{
    let job = one.job.as_str();
    let need = one.need.as_str();
    writeln!(text, "{job} needs {need}, which the pipeline doesn't have")
}

/// Puts lines for needs that aren't met behind a text.
fn put_unmet(text: &mut String, needs: &[NamedNeed]) -> Result<(), AllocError>
    ensures { OnOk result (string_bytes text.new ≡ string_bytes text.old ++ flat_map unmet_line needs.now) }
{
    for one in needs {
        put_unmet_line(text, one)?;
    }
    Ok(())
}

fn put_later_line(text: &mut String, one: &NamedNeed) -> Result<(), AllocError>
    ensures { OnOk result (string_bytes text.new ≡ string_bytes text.old ++ later_line one.now) }
{
    let job = one.job.as_str();
    let need = one.need.as_str();
    writeln!(text, "{job} needs {need}, which is of a later stage")
}

/// Puts lines for needs of later stages behind a text.
fn put_later(text: &mut String, needs: &[NamedNeed]) -> Result<(), AllocError>
    ensures { OnOk result (string_bytes text.new ≡ string_bytes text.old ++ flat_map later_line needs.now) }
{
    for one in needs {
        put_later_line(text, one)?;
    }
    Ok(())
}

fn put_wait(text: &mut String, one: &Text, other: &Text) -> Result<(), AllocError>
    ensures { OnOk result (string_bytes text.new ≡ string_bytes text.old ++ wait_line one.now other.now) }
{
    let one = one.as_str();
    let other = other.as_str();
    writeln!(text, "{one} waits for {other}")
}

/// Puts lines for the jobs of a circle behind a text.
fn put_circle(text: &mut String, jobs: &[Text]) -> Result<(), AllocError>
    ensures { OnOk result (string_bytes text.new ≡ string_bytes text.old ++ circle_lines jobs.now) }
{
    let Some((first, others)) = jobs.split_first() else {
        return Ok(());
    };
    let mut one = first;
    for next in others {
        put_wait(text, one, next)?;
        one = next;
    }
    put_wait(text, one, first)
}

fn put_idle_line(text: &mut String, job: &Text) -> Result<(), AllocError>
    ensures { OnOk result (string_bytes text.new ≡ string_bytes text.old ++ idle_line job.now) }
{
    let job = job.as_str();
    writeln!(
        text,
        "{job} is of .pre or .post, and those alone make no pipeline"
    )
}

/// Puts lines for jobs that make no pipeline alone behind a text.
fn put_idle(text: &mut String, jobs: &[Text]) -> Result<(), AllocError>
    ensures { OnOk result (string_bytes text.new ≡ string_bytes text.old ++ flat_map idle_line jobs.now) }
{
    for job in jobs {
        put_idle_line(text, job)?;
    }
    Ok(())
}

fn put_many_line(text: &mut String, job: &Text) -> Result<(), AllocError>
    ensures { OnOk result (string_bytes text.new ≡ string_bytes text.old ++ many_line job.now) }
{
    let job = job.as_str();
    writeln!(text, "{job} gives more than 50 needs")
}

/// Puts lines for jobs that give too many needs behind a text.
fn put_many(text: &mut String, jobs: &[Text]) -> Result<(), AllocError>
    ensures { OnOk result (string_bytes text.new ≡ string_bytes text.old ++ flat_map many_line jobs.now) }
{
    for job in jobs {
        put_many_line(text, job)?;
    }
    Ok(())
}

/// Puts the lines of a fault behind a text: its code, and those that it is about.
fn put_fault(text: &mut String, fault: &Fault) -> Result<(), AllocError>
    ensures { OnOk result (string_bytes text.new ≡ string_bytes text.old ++ fault_text fault.now) }
{
    let code = code_text(fault.code());
    writeln!(text, "refused: {code}")?;
    match fault {
        Fault::Unmet(needs) => put_unmet(text, needs.as_slice()),
        Fault::Later(needs) => put_later(text, needs.as_slice()),
        Fault::Circle(jobs) => put_circle(text, jobs.as_slice()),
        Fault::NoWork(jobs) => put_idle(text, jobs.as_slice()),
        Fault::ManyNeeds(jobs) => put_many(text, jobs.as_slice()),
    }
}

/// Puts the line of a job that is left out behind a text.
fn put_left_out(text: &mut String, one: &LeftOut) -> Result<(), AllocError>
    ensures { OnOk result (string_bytes text.new ≡ string_bytes text.old ++ left_out_line one.now) }
{
    let name = one.name.as_str();
    match one.rule {
        Some(number) => writeln!(text, "left out: {name}: its rule {number} says never"),
        None => writeln!(text, "left out: {name}: none of its rules holds"),
    }
}

/// Puts the lines of the jobs that are left out behind a text.
fn put_each_left_out(text: &mut String, jobs: &[LeftOut]) -> Result<(), AllocError>
    ensures { OnOk result (string_bytes text.new ≡ string_bytes text.old ++ flat_map left_out_line jobs.now) }
{
    for job in jobs {
        put_left_out(text, job)?;
    }
    Ok(())
}

/// Puts what is told of the jobs behind a text.
fn put_told(text: &mut String, jobs: &Result<Items<PlannedJob>, Fault>) -> Result<(), AllocError>
    ensures { OnOk result (string_bytes text.new ≡ string_bytes text.old ++ told jobs.now) }
{
    match jobs {
        Ok(jobs) => put_jobs(text, jobs.as_slice()),
        Err(fault) => put_fault(text, fault),
    }
}

/// The text of a plan: a table of the jobs, or the code of the fault and the jobs that it is about; and then a line for each job that is
/// left out. Errors: memory was refused.
pub fn plan_text(alloc: Global, plan: &Plan) -> Result<String, AllocError>
    ensures { IfOk result (λ text. string_bytes text ≡ plan_text plan.now) }
{
    let mut text = String::new(alloc);
    put_told(&mut text, &plan.jobs)?;
    put_each_left_out(&mut text, plan.left_out.as_slice())?;
    Ok(text)
}

/// Puts of which rule a note is behind a text.
fn put_note_head(text: &mut String, note: &Note) -> Result<(), AllocError>
    ensures { OnOk result (string_bytes text.new ≡ string_bytes text.old ++ note_head note.now) }
{
    let rule = note.rule;
    let job = note.job.as_str();
    write!(text, "note: rule {rule} of {job}")
}

/// Puts what a note says behind a text.
fn put_note_body(text: &mut String, note: &Note) -> Result<(), AllocError>
    ensures { OnOk result (string_bytes text.new ≡ string_bytes text.old ++ note_body note.now) }
{
    let variable = note.variable.as_str();
    write!(
        text,
        " compares with {variable}, which nothing defines: set it as a variable of "
    )
}

/// Puts what is to be done about a note behind a text.
fn put_note_end(text: &mut String, note: &Note) -> Result<(), AllocError>
    ensures { OnOk result (string_bytes text.new ≡ string_bytes text.old ++ note_end note.now) }
{
    let variable = note.variable.as_str();
    writeln!(
        text,
        "the project or of each request, and give it here as --variable {variable}=VALUE"
    )
}

/// Puts the line of a note behind a text.
#[tactic(auto, unfolding(crate::specs::TableText::note_line))]
fn put_note(text: &mut String, note: &Note) -> Result<(), AllocError>
    ensures { OnOk result (string_bytes text.new ≡ string_bytes text.old ++ note_line note.now) }
{
    put_note_head(text, note)?;
    put_note_body(text, note)?;
    put_note_end(text, note)
}

/// Puts the lines of notes behind a text.
fn put_notes(text: &mut String, notes: &[Note]) -> Result<(), AllocError>
    ensures { OnOk result (string_bytes text.new ≡ string_bytes text.old ++ flat_map note_line notes.now) }
{
    for note in notes {
        put_note(text, note)?;
    }
    Ok(())
}

/// The text of a plan, and a line for each note behind it. Errors: memory was refused.
pub fn told_text(alloc: Global, plan: &Plan, notes: &[Note]) -> Result<String, AllocError>
    ensures { IfOk result (λ text. string_bytes text ≡ told_text plan.now notes.now) }
{
    let mut text = plan_text(alloc, plan)?;
    put_notes(&mut text, notes)?;
    Ok(text)
}
