// SPDX-License-Identifier: GPL-2.0-only
//! The run of a script on threads, and its report.
//!
//! What belongs here: the workers of a script as the items of one call of `map_vec`, each with
//! seats of its own, from the opening of the tables to the report, and behind their commands as
//! the helpers of its sweep. What a worker does stands in `shr_worker`, how tables are opened,
//! split, joined and ended in `shr_tables`, and why the report is lawful in `shr_assemble` and
//! `shr_lawful`.
#![tactic(auto)]

mod joining;
mod reporting;
mod running;
mod starting;
mod sweeping;
mod working;

pub use reporting::run_and_report;
