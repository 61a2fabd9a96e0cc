// SPDX-License-Identifier: GPL-2.0-only
//! Ends, long scripts and long reports by calls, and whole runs of the program with gates and with ends that fail.
#![tactic(auto)]

#[cfg(test)]
mod audits;
#[cfg(test)]
mod ends;
#[cfg(test)]
mod failures;
#[cfg(test)]
mod gates;
#[cfg(test)]
mod printing;
#[cfg(test)]
mod reading;
#[cfg(test)]
mod runs;
#[cfg(test)]
mod scripts;
#[cfg(test)]
mod seeds;
