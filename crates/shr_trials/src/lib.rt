// SPDX-License-Identifier: GPL-2.0-only
//! Lists, words, rooms and registrations by calls, by one thread and by two.
#![tactic(auto)]

#[cfg(test)]
mod acts;
#[cfg(test)]
mod calls;
#[cfg(test)]
mod desk;
#[cfg(test)]
mod families;
#[cfg(test)]
mod left;
#[cfg(test)]
mod limits;
#[cfg(test)]
mod lists;
#[cfg(test)]
mod rooms;
#[cfg(test)]
mod threads;
#[cfg(test)]
mod words;
