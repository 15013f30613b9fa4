// Trials of the job reader and of the text that answers an input: tables of cases, each with what must come of it.
#![tactic(auto)]

#[cfg(test)]
mod accepted;
#[cfg(test)]
mod build;
#[cfg(test)]
mod contents;
#[cfg(test)]
mod crowded;
#[cfg(test)]
mod lent;
#[cfg(test)]
mod lists;
#[cfg(test)]
mod nowhere;
#[cfg(test)]
mod numbers;
#[cfg(test)]
mod order;
#[cfg(test)]
mod outcome;
#[cfg(test)]
mod overlong;
#[cfg(test)]
mod range;
#[cfg(test)]
mod replies;
#[cfg(test)]
mod restless;
#[cfg(test)]
mod short;
#[cfg(test)]
mod stray;
