// Examples with answers worked out by hand from docs/RULES.md: what is built and refused at each limit, what is read, how readings of different
// kinds compare, and what they become in other forms.
#![tactic(auto)]

#[cfg(test)]
mod building;
#[cfg(test)]
mod comparing;
#[cfg(test)]
mod converting;
#[cfg(test)]
mod reading;
#[cfg(test)]
mod refusing;
