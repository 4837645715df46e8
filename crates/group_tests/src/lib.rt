//! Tests of the texts of analyses and groups, of what is measured, and of books, by public calls alone.
#![tactic(auto)]

#[cfg(test)]
mod books;
#[cfg(test)]
mod members;
#[cfg(test)]
mod samples;
#[cfg(test)]
mod shown;
#[cfg(test)]
mod texts;
