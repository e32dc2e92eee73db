//! The commands that change a journal's accounts, carry it over, ship its records, take payments back, mend what was sent, and list
//! balances and entries, over files, sinks and disks, also such that fail or stop, each by the top call.

#![tactic(auto)]

#[cfg(test)]
mod balances;
#[cfg(test)]
mod changes;
#[cfg(test)]
mod checks;
#[cfg(test)]
mod customers;
#[cfg(test)]
mod entries;
#[cfg(test)]
mod following;
#[cfg(test)]
mod mending;
#[cfg(test)]
mod migrations;
#[cfg(test)]
mod returns;
#[cfg(test)]
mod shipping;
#[cfg(test)]
mod stopped_twice;
