// The last page: the three demands, each with the definitions that state it and the theorem or promise that meets it,
// and worked logs from bytes to listing. No code, and no other crate uses it: it is for readers.
#![tactic(auto)]
