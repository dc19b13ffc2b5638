//! Tests of the public calls below, over networks and bids that are read from the rows of tables.
//!
//! A proof covers what the clauses say. What stands here lies outside: each public call that no command makes is called
//! once with ample memory, each generic call once at a concrete type through its bound, and the definitions are held
//! against values worked by hand. What a command prints is a case of `optra_cases`.
#![tactic(auto)]

#[cfg(test)]
mod auctions;
#[cfg(test)]
mod crosses;
#[cfg(test)]
mod crossings;
#[cfg(test)]
mod decisions;
#[cfg(test)]
mod disks;
#[cfg(test)]
mod graphs;
#[cfg(test)]
mod instances;
#[cfg(test)]
mod narrow_paths;
#[cfg(test)]
mod networks;
#[cfg(test)]
mod nodes;
#[cfg(test)]
mod outside;
#[cfg(test)]
mod paths;
#[cfg(test)]
mod platforms;
#[cfg(test)]
mod prices;
#[cfg(test)]
mod repairs;
#[cfg(test)]
mod rows;
#[cfg(test)]
mod tables;
#[cfg(test)]
mod texts;
#[cfg(test)]
mod timetables;
#[cfg(test)]
mod walks;
