// Examples at the edges of what the library takes: each limit, and one past it.
#![tactic(auto)]

#[cfg(test)]
mod drawing;
#[cfg(test)]
mod numbering;
#[cfg(test)]
mod tenths_text;
#[cfg(test)]
mod wholeness;
