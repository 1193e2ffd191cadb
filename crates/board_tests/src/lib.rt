//! Tests of the board: callers and viewers on threads, histories by themselves and by turns, the places of looks in a
//! run, and logs in pieces; of the commands: faults, the calls of the outside, the order of a run, and the map after
//! each write; of files and writers that take a byte at once, are interrupted and fail late, and of the shelves and
//! sinks in memory.
#![tactic(auto)]

#[cfg(test)]
mod callers;
#[cfg(test)]
mod commands;
#[cfg(test)]
mod counting_gate;
#[cfg(test)]
mod doubles;
#[cfg(test)]
mod eight;
#[cfg(test)]
mod examples;
#[cfg(test)]
mod first_fetch;
#[cfg(test)]
mod history;
#[cfg(test)]
mod holding_gate;
#[cfg(test)]
mod look_places;
#[cfg(test)]
mod made_maps;
#[cfg(test)]
mod marks;
#[cfg(test)]
mod orders;
#[cfg(test)]
mod outside;
#[cfg(test)]
mod pieces;
#[cfg(test)]
mod plain;
#[cfg(test)]
mod slow_files;
#[cfg(test)]
mod told;
#[cfg(test)]
mod turns;
#[cfg(test)]
mod viewers;
