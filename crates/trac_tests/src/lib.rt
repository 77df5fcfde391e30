//! Tests by public names: of the three lists of a block; of devices, some of which fail; of values; of machines that
//! are used again, fed in pieces and looked at; of whole runs, whose rows were worked by hand, in every room, with
//! every allowance and over devices that fail; and of the settings, lines and statuses of runs.
#![tactic(auto)]

#[cfg(test)]
mod buffers;
#[cfg(test)]
mod changing;
#[cfg(test)]
mod devices;
#[cfg(test)]
mod fakes;
#[cfg(test)]
mod interruptions;
#[cfg(test)]
mod machine;
#[cfg(test)]
mod session;
#[cfg(test)]
mod settings;
#[cfg(test)]
mod space;
#[cfg(test)]
mod taking;
#[cfg(test)]
mod values;
#[cfg(test)]
mod view;
