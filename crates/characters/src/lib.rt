// No code: what UTF-8, trimming and lines mean in characters, as theorems: well formed means encodings of scalar values, trimming bytes is trimming characters,
// and the lines of a well-formed text are well formed.
#![tactic(auto)]
