//! Examples on drafts, plans and reports.
#![tactic(auto)]

#[cfg(test)]
mod answers;
#[cfg(test)]
mod drafts;
#[cfg(test)]
mod plans;
#[cfg(test)]
mod reports;
#[cfg(test)]
mod responses;
