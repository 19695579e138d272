//! Tests of what cases can't say as data: the files of the disk, a stream, a wire over a socket, the plug of the program, hands in
//! threads of their own, and an Engine that settles and has a script. The crate gives out nothing.
#![tactic(auto)]

#[cfg(test)]
mod disk;
#[cfg(test)]
mod plugs;
#[cfg(test)]
mod settling;
#[cfg(test)]
mod sockets;
#[cfg(test)]
mod streams;
#[cfg(test)]
mod threads;
