// The parts of the rows of numbers in which a host hands over an expectation, a response and the handshake's information.
#![tactic(auto)]

pub mod parts;
