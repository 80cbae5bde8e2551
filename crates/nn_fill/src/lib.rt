//! A run over generated files, as definitions: its lines are changes of the namespace, and one line at its end answers all of
//! them. It promises the laws by which such a run is kept at each moment. It knows nothing of a host's calls.
#![tactic(auto)]

pub mod laws;
