//! Reading a tree.

ghost use Rattle.std.specs.Prelude.{◌≤◌, IfOk};
ghost use Rattle.ci_config.specs.Prelude.{value_view, config_cost, IsMeasured, Patterns, Gives, GivesAt, reading, meaning, config_view};
ghost use Rattle.ci_config_reader.specs.Answer.{builds_for};

use crate::budget::is_within;
use crate::file::file_config;
use crate::tree::{is_map, map_of};
use ci_config::{Config, ConfigCode, ConfigFault, MAX_BUILDING_COST, ReadFault};
use ci_expr::laws::measures_each_pattern;
use ci_yaml_lines::tree::Tree;
use std::alloc::Global;

fn reading<'t>(alloc: Global, tree: &'t Tree) -> Result<Config<'t>, ReadFault>
    ensures { GivesAt config_view result (reading (builds_for result) (value_view tree.now)) }
{
    if !is_map(tree) {
        return Err(ReadFault::Here(ConfigCode::K1));
    }
    match map_of(tree) {
        Ok(pairs) => file_config(alloc, pairs),
        Err(fault) => Err(fault),
    }
}

/// What a tree configures, or its first fault and which entry has it.
///
/// Errors: memory was refused; or the first fault of the tree, in the order of the definition: the document's own kind; the
/// entries in their order, each one's inside before the next; then the jobs, their scripts and stages; then that there is one.
/// Building all patterns together may cost `MAX_BUILDING_COST`: at the expression in which they cost more the fault is X8, and nothing
/// behind it is built.
pub fn read_config<'t>(alloc: Global, tree: &'t Tree) -> Result<Config<'t>, ReadFault>
    // What is answered is what is read of the tree with some choice of the patterns that are built, unless memory was refused.
    ensures answer { (builds : Patterns) × GivesAt config_view result (reading builds (value_view tree.now)) }
    // Building the patterns of what is answered costs no more together than it may.
    ensures budget { IfOk result (λ c. config_cost c ≤ MAX_BUILDING_COST) }
    // Each of them is counted with the bytes that the tables of its automaton take.
    ensures measured { IfOk result IsMeasured }
{
    measures_each_pattern();
    match reading(alloc, tree) {
        Ok(config) => {
            // It is, since the reading would have stopped: no clause of its functions says it.
            match is_within(alloc, &config) {
                Ok(true) => Ok(config),
                _ => Err(ReadFault::Memory),
            }
        }
        Err(fault) => Err(fault),
    }
}

/// What a tree configures. Errors: those of `read_config`, without where they are.
pub fn config<'t>(alloc: Global, tree: &'t Tree) -> Result<Config<'t>, ConfigFault>
    // What is answered is what the tree means with some choice of the patterns that are built, unless memory was refused.
    ensures answer { (builds : Patterns) × Gives config_view result (meaning builds (value_view tree.now)) }
    ensures budget { IfOk result (λ c. config_cost c ≤ MAX_BUILDING_COST) }
    ensures measured { IfOk result IsMeasured }
{
    match read_config(alloc, tree) {
        Ok(config) => Ok(config),
        Err(ReadFault::Memory) => Err(ConfigFault::Memory),
        Err(ReadFault::Here(code) | ReadFault::Inside(code, _)) => Err(ConfigFault::Fault(code)),
    }
}
