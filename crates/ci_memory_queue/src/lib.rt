//! The pending jobs as they are remembered, by class: by what they ask of a runner. A runner is held against each class once, and the
//! first job of a class that it may run, and that is pending still, is what it may be given.
#![tactic(auto)]

mod asks;
mod best;
mod classes;
mod fill;
mod heads;
pub mod lines;
mod notes;
pub mod offer;
mod pending;
pub mod queue;
mod sorting;
mod turns;
