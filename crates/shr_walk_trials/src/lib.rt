// SPDX-License-Identifier: GPL-2.0-only
//! Passes, walks, a tenant's commands and offlining by calls: what no script can show.
#![tactic(auto)]

#[cfg(test)]
mod commands;
#[cfg(test)]
mod deferred;
#[cfg(test)]
mod desk;
#[cfg(test)]
mod fakes;
#[cfg(test)]
mod formulas;
#[cfg(test)]
mod passes;
#[cfg(test)]
mod replies;
#[cfg(test)]
mod sweeps;
#[cfg(test)]
mod threads;
#[cfg(test)]
mod visits;
#[cfg(test)]
mod worn;
