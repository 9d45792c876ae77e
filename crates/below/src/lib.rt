// The lines below an opening line, or of the preamble, up to the next opening line: what they say is kept by key, and their pairs and expectations are
// written into the tables.
#![tactic(auto)]

pub mod lines_below;
