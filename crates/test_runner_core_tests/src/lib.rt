//! Tests of what no clause of the core says and no row can: streams whose calls fail, a lister of
//! one's own, runs that go on behind a refused step, and what refusals print.
#![tactic(auto)]

#[cfg(test)]
mod failing_streams;
#[cfg(test)]
mod filtersets;
#[cfg(test)]
mod judging;
#[cfg(test)]
mod keyed;
#[cfg(test)]
mod lines;
#[cfg(test)]
mod lister;
#[cfg(test)]
mod refusals;
#[cfg(test)]
mod runs;
#[cfg(test)]
mod walks;
